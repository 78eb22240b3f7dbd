//! The lines that reject a field.

ghost use Rattle.std.specs.Prelude.{[], None, Some};
ghost use Rattle.tui_io.specs.Causes.{Writes};
ghost use Rattle.tui_program.specs.FieldLine.{refused_field, refused_in_scene};

use tui_io::{Print, Sink, WriteFault};

/// Writes the line `refused: field NAME`, or `refused: field NAME at I` for a field of the item with that number, from
/// 0. On `WriteFault` the sink has taken the first bytes, but not all of them. Does not allocate.
pub fn write_refused_field<K: Sink>(
    name: &str,
    at: Option<usize>,
    sink: &mut K,
) -> Result<(), WriteFault>
    ensures { Writes (K.observed sink.old) (K.observed sink.new) result (refused_field name.now at) }
{
    match at {
        None => write_name(name, sink),
        Some(i) => write_name_at(name, i, sink),
    }
}

fn write_name<K: Sink>(name: &str, sink: &mut K) -> Result<(), WriteFault>
    ensures { Writes (K.observed sink.old) (K.observed sink.new) result (refused_field name.now None) }
{
    let mut print = Print::new();
    print.text(sink, "refused: field ");
    print.text(sink, name);
    print.text(sink, "\n");
    print.end(sink)
}

fn write_name_at<K: Sink>(name: &str, i: usize, sink: &mut K) -> Result<(), WriteFault>
    ensures { Writes (K.observed sink.old) (K.observed sink.new) result (refused_field name.now (Some i)) }
{
    let mut print = Print::new();
    print.text(sink, "refused: field ");
    print.text(sink, name);
    print.text(sink, " at ");
    print.number(sink, i);
    print.text(sink, "\n");
    print.end(sink)
}

/// Writes the line `refused: scene field NAME`, or `refused: PART I field NAME` for a field of the part of the scene
/// that has this name and this number, from 0. On `WriteFault` the sink has taken the first bytes, but not all of them.
/// Does not allocate.
pub fn write_refused_in_scene<K: Sink>(
    part: &str,
    at: Option<usize>,
    name: &str,
    sink: &mut K,
) -> Result<(), WriteFault>
    ensures { Writes (K.observed sink.old) (K.observed sink.new) result (refused_in_scene part.now at name.now) }
{
    match at {
        None => write_scene_field(name, sink),
        Some(i) => write_part_field(part, i, name, sink),
    }
}

fn write_scene_field<K: Sink>(name: &str, sink: &mut K) -> Result<(), WriteFault>
    ensures { Writes (K.observed sink.old) (K.observed sink.new) result (refused_in_scene [] None name.now) }
{
    let mut print = Print::new();
    print.text(sink, "refused: scene field ");
    print.text(sink, name);
    print.text(sink, "\n");
    print.end(sink)
}

fn write_part_field<K: Sink>(
    part: &str,
    i: usize,
    name: &str,
    sink: &mut K,
) -> Result<(), WriteFault>
    ensures { Writes (K.observed sink.old) (K.observed sink.new) result (refused_in_scene part.now (Some i) name.now) }
{
    let mut print = Print::new();
    print.text(sink, "refused: ");
    print.text(sink, part);
    print.text(sink, " ");
    print.number(sink, i);
    print.text(sink, " field ");
    print.text(sink, name);
    print.text(sink, "\n");
    print.end(sink)
}
