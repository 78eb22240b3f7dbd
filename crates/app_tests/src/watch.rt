//! The screens of a dashboard over ticks.

use crate::last::ends_with;
use crate::machine::Scripted;
use std::alloc::Global;
use std::cell::Cell;
use tui_cells::{Mem, Size};
use tui_watch_lib::Watch;

/// Since the machine began: 7.5 of 40 columns are 150 of 800 ticks; the new point of each sparkline is 12, 4 and 12 eighths high of 24.
const FIRST: &str = "\
load 0.52 0.58 0.59   up 4 d 01:55   p p
███████▌    2 processors 18%            
█████████memory 3.8 of 7.7 GiB          
██████████swap 0.4 of 1.9 GiB           
load──────── processors─── memory───────
                                        
           ▄                           ▄
           █             ▄             █
    PID S   CPU%      MiB NAME          
     42 R   15.0        2 my (odd) name 
      1 S   10.0       12 systemd       
      7 I    0.0        0 kworker/0:1   
";

/// A tick later. The load of 1.04 fills its column.
const SECOND: &str = "\
load 1.04 0.60 0.59   up 4 d 01:56   p p
████████████2 processors 50%            
█████████memory 3.8 of 7.7 GiB          
██████████swap 0.4 of 1.9 GiB           
load──────── processors─── memory───────
           █                            
          ▄█             ▄            ▄▄
          ██            ▄█            ██
    PID S   CPU%      MiB NAME          
     77 R   30.0        0 a\u{fffd}b           
      1 S   10.0       12 systemd       
     42 R    0.0        2 my (odd) name 
";

/// A tick after p, which changes the first row alone.
const PAUSED: &str = "\
load 1.04 0.60 0.59   up 4 d 01:56   pau
████████████2 processors 50%            
█████████memory 3.8 of 7.7 GiB          
██████████swap 0.4 of 1.9 GiB           
load──────── processors─── memory───────
           █                            
          ▄█             ▄            ▄▄
          ██            ▄█            ██
    PID S   CPU%      MiB NAME          
     77 R   30.0        0 a\u{fffd}b           
      1 S   10.0       12 systemd       
     42 R    0.0        2 my (odd) name 
";

/// A tick after another p, when nothing can be read.
const THIRD: &str = "\
no loadavg   no uptime   p pauses, q qui
no stat                                 
no meminfo                              
no meminfo                              
no loadavg── no stat────── no meminfo───
          █                             
         ▄█             ▄            ▄▄ 
         ██            ▄█            ██ 
no processes                            
                                        
                                        
                                        
";

/// What is read, and the screen then.
const TICKS: [(&[&[u8]], &str); 6] = [
    (&[], FIRST),
    (&[b"\0"], SECOND),
    // A read has one tick, and it comes last.
    (&[b"\0\0x\0"], SECOND),
    (&[b"\0", b"\0p"], PAUSED),
    (&[b"\0", b"p\0"], PAUSED),
    (&[b"\0", b"p\0", b"p\0", b"q"], THIRD),
];

fn goes_as_expected(alloc: Global, reads: &[&[u8]], rows: &str) -> Mem<bool> {
    let machine = Scripted {
        readings: Cell::new(0),
    };
    let mut watch = Watch::new(alloc, machine)?;
    let size = Size {
        width: 40,
        height: 12,
    };
    ends_with(alloc, &mut watch, size, reads, rows)
}

#[test]
fn ticks(rt: HostRuntime) -> Mem<()> {
    for &(reads, rows) in &TICKS {
        assert!(&rt; goes_as_expected(rt.alloc(), reads, rows)?);
    }
    Ok(())
}
