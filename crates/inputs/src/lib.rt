// The inputs of the programs, standard input, nodes.bin and a strip's file, read to their end. Each read's own answer says whether it failed.
#![tactic(auto)]

ghost use Rattle.std.specs.Prelude.{IfOk};
ghost use Rattle.io.specs.Counts.{IsPrefixLen};
ghost use Rattle.inputs.specs.Rooms.{Within, Decides};

use low_bytes::TEXT_MAX;
use outputs::Failed;
use pool::LIMIT;
use std::env::{Env, FillError};
use std::fs::Files;
use std::io::{Eprint, ErrorKind, Read};
use std::{fs, io};

// One byte more than the longest file has: a file that fills this room is too long.
pub const FILE_ROOM: usize = 4 + 9 * LIMIT + 1;

// One byte more than the longest strip has.
pub const STRIP_ROOM: usize = TEXT_MAX + 1;

// One byte more than the longest path has.
const NAME_ROOM: usize = 4096;

// Reads until the room is full or the input ends: how many bytes there are. An input that is not ready, as a pipe that does not wait, has failed.
pub fn read_full<R: Read>(reader: &mut R, room: &mut [u8]) -> io::Result<usize>
    ensures { IfOk result (λ n. IsPrefixLen n room.new) }
{
    // A read says itself how many bytes it gave, so the loop goes by no index; std's reading to the end fills a Vec, and the room may be full before the end.
    let mut done = 0;
    while done < room.len() {
        let n = reader.read(&mut room[done..])?;
        if n == 0 {
            return Ok(done);
        }
        done += n;
    }
    Ok(done)
}

// The same, where standard error is told what failed.
pub fn read_input<R: Read>(
    rt: &impl Eprint,
    reader: &mut R,
    name: &[u8],
    room: &mut [u8],
) -> Result<usize, Failed>
    ensures { IfOk result (λ n. IsPrefixLen n room.new) }
{
    read_full(reader, room).map_err(|error| outputs::say_failed(rt, name, error))
}

// The file of a name, which std wants as text: how many bytes it has, if there is such a file.
pub fn read_file(
    rt: &(impl Files + Eprint),
    name: &[u8],
    room: &mut [u8],
) -> Result<Option<usize>, Failed>
    ensures { Within result room.new }
{
    let path = str::from_utf8(name).map_err(|_| outputs::say(
        rt,
        b"the name of a file",
        "it is not UTF-8 text",
    ))?;
    match fs::open(rt, path) {
        Ok(mut file) => {
            let n = read_input(rt, &mut file, name, room)?;
            Ok(Some(n))
        }
        Err(error) if error.kind() == ErrorKind::NotFound => Ok(None),
        Err(error) => Err(outputs::say_failed(rt, name, error)),
    }
}

// nodes.bin in the working directory.
#[tactic(auto, using(crate::proofs::Enough::bytes_decide))]
pub fn read_nodes(
    rt: &(impl Files + Eprint),
    room: &mut [u8; FILE_ROOM],
) -> Result<Option<usize>, Failed>
    ensures { Decides result room.new }
{
    read_file(rt, b"nodes.bin", room)
}

// The file of a name, where a missing one has failed.
fn read_named(rt: &(impl Files + Eprint), name: &[u8], room: &mut [u8]) -> Result<usize, Failed>
    ensures { IfOk result (λ n. IsPrefixLen n room.new) }
{
    read_file(rt, name, room)?.ok_or_else(|| outputs::say_missing(rt, name))
}

// What is said where there is not exactly one argument.
const USAGE: &str = "one argument is needed, the name of a strip's file";

// The file that the program's only argument names.
fn read_argument(rt: &(impl Env + Files + Eprint), room: &mut [u8]) -> Result<usize, Failed>
    ensures { IfOk result (λ n. IsPrefixLen n room.new) }
{
    let Err(FillError::NotPresent) = rt.arg(2, &mut []) else {
        return Err(outputs::say_usage(rt, USAGE));
    };
    let mut name = [0u8; NAME_ROOM];
    match rt.arg(1, &mut name) {
        Ok(n) => read_named(rt, &name[..n], room),
        Err(FillError::NotPresent) => Err(outputs::say_usage(rt, USAGE)),
        Err(FillError::TooLong) => {
            let failed = outputs::say(rt, b"the name of the strip's file", "File name too long");
            Err(failed)
        }
    }
}

// The strip in the file that the program's only argument names, unless it is longer than any strip.
pub fn read_strip(
    rt: &(impl Env + Files + Eprint),
    room: &mut [u8; STRIP_ROOM],
) -> Result<usize, Failed>
    ensures { IfOk result (λ n. IsPrefixLen n room.new) }
{
    let n = read_argument(rt, room)?;
    if TEXT_MAX < n {
        let _ = eprintln!(rt; "the strip's file has more than {TEXT_MAX} bytes");
        return Err(Failed);
    }
    Ok(n)
}
