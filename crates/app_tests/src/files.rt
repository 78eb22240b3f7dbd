//! Keys in the browser of folders, the screen that they lead to, and the path that is selected then.

use crate::folders::MemFolders;
use crate::last::ends_with;
use std::alloc::Global;
use tui_cells::{Mem, Size};
use tui_files_lib::FilesApp;

struct Session {
    width: u16,
    reads: &'static [&'static [u8]],
    rows: &'static str,
    chosen: &'static str,
}

/// In a folder with a hidden folder, one that can't be read, and a name with a control character.
const SESSIONS: [Session; 10] = [
    Session {
        width: 24,
        reads: &[],
        rows: "\
┌/home─────┐┌docs/─────┐
│>docs/    ││          │
│ locked/  ││          │
│ a.txt    ││          │
└──────────┘└──────────┘
1/5, 5 more, 2 not UTF-8
",
        chosen: "/home/docs",
    },
    // The list scrolls for the selected name; its file can't be read.
    Session {
        width: 24,
        reads: &[b"jj", b"\x1b[B"],
        rows: "\
┌/home─────┐┌b�────────┐
│ locked/  ││cannot be │
│ a.txt    ││read      │
│>b�       ││          │
└──────────┘└──────────┘
4/5, 5 more, 2 not UTF-8
",
        chosen: "/home/b\u{1}",
    },
    // Into a folder.
    Session {
        width: 24,
        reads: &[b"\r"],
        rows: "\
┌/home/docs┐┌list.txt──┐
│>list.txt ││milk      │
│ todo     ││    eggs  │
│          ││          │
└──────────┘└──────────┘
1/2                     
",
        chosen: "/home/docs/list.txt",
    },
    // Out of two folders, each of which is selected then; there is none above the root.
    Session {
        width: 24,
        reads: &[b"\r", b"\x1b[D\x7f\x7f"],
        rows: "\
┌/─────────┐┌home/─────┐
│>home/    ││          │
│          ││          │
│          ││          │
└──────────┘└──────────┘
1/1                     
",
        chosen: "/home",
    },
    // A folder that can't be read is reported, and not entered.
    Session {
        width: 24,
        reads: &[b"j\r"],
        rows: "\
┌/home─────┐┌locked/───┐
│ docs/    ││          │
│>locked/  ││          │
│ a.txt    ││          │
└──────────┘└──────────┘
/home/locked cannot be r
",
        chosen: "/home/locked",
    },
    // With hidden names the selected one stays.
    Session {
        width: 24,
        reads: &[b"."],
        rows: "\
┌/home─────┐┌docs/─────┐
│ .git/    ││          │
│>docs/    ││          │
│ locked/  ││          │
└──────────┘└──────────┘
2/6, 5 more, 2 not UTF-8
",
        chosen: "/home/docs",
    },
    // A part is typed, in which j and q are characters, and the last ones are taken back.
    Session {
        width: 24,
        reads: &[b"/ra", b"jq\x7f\x7f"],
        rows: "\
┌/home─────┐┌raw───────┐
│>raw      ││binary    │
│          ││          │
│          ││          │
└──────────┘└──────────┘
/ra                     
",
        chosen: "/home/raw",
    },
    // Left moves in the filter: x comes before the last t.
    Session {
        width: 24,
        reads: &[b"/tt", b"\x1b[Dx"],
        rows: "\
┌/home─────┐┌a.txt─────┐
│>a.txt    ││a word    │
│          ││          │
│          ││          │
└──────────┘└──────────┘
/txt                    
",
        chosen: "/home/a.txt",
    },
    // A file ends the session, and what is read after it is ignored.
    Session {
        width: 24,
        reads: &[b"/tx\r", b"\r", b"k"],
        rows: "\
┌/home─────┐┌a.txt─────┐
│>a.txt    ││a word    │
│          ││          │
│          ││          │
└──────────┘└──────────┘
1/1, 5 more, 2 not UTF-8
",
        chosen: "/home/a.txt",
    },
    Session {
        width: 11,
        reads: &[b"j"],
        rows: "\
too small  
           
           
           
           
           
",
        chosen: "/home/locked",
    },
];

fn goes_as_expected(alloc: Global, session: &Session) -> Mem<bool> {
    match FilesApp::new(alloc, MemFolders {}, "/home")? {
        Some(mut app) => leads_to(alloc, &mut app, session),
        None => Ok(false),
    }
}

fn leads_to(alloc: Global, app: &mut FilesApp<MemFolders>, session: &Session) -> Mem<bool> {
    let size = Size {
        width: session.width,
        height: 6,
    };
    if !ends_with(alloc, app, size, session.reads, session.rows)? {
        return Ok(false);
    }
    Ok(app.chosen(alloc)?.as_str() == session.chosen)
}

#[test]
fn sessions(rt: HostRuntime) -> Mem<()> {
    for session in &SESSIONS {
        assert!(&rt; goes_as_expected(rt.alloc(), session)?);
    }
    Ok(())
}
