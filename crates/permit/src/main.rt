// The program `permit`: reads a text of papers, marks and questions, and answers it line by line.
#![tactic(auto)]

use anyhow::anyhow;
use session::answer_text;
use std::io::{BufWriter, Read, Write};
use std::process::ExitCode;
use std::{env, fs};

const VERSION: &str = "permit, proved with rattle-kit-13f logic dac8208d650f15bf\n";

const HELP: &str = "permit [FILE]
permit --help | --version

Reads a text from FILE or standard input, all of it first, and answers its lines in their order.

  paper HEX..      the bytes of a paper; its elements, one a line and two spaces further in for
                   each level, or `ill at K`: with byte K, counted from 0, nothing behind could
                   mend it; if K is how many bytes there are, the end comes too soon, and more
                   bytes could
  seals M M ..     marks, for each paper a row: 1 where its seal under a paper is right, else 0
  trusted M M ..   marks, one for each paper: 1 if that paper is a trust anchor, else 0
  piece P W W ..   the element of paper P by the path W W .., or `none`
  chain A day D    the papers of a shortest chain from A to a trust anchor on day D, or `none`

Bytes are in base sixteen, two digits each; other numbers are decimal, marks below 256, all others
below 2^64. Papers, elements and lines are counted from 0. Marks have no answer, nor has a blank
line or one with `#` first. All papers and marks count for every piece and chain, wherever they
stand in the text.
What can't be answered is refused, `refused N at PLACE`, for the first of these that applies:

  N  why                                               PLACE
  1  there is no paper for a chain                     0
     there are more than 200 papers for a chain        200
     one of them is no permit                          the first such paper
  2  n papers have not n times n seals marks           how many seals marks there are
     n papers have not n trusted marks                 how many trusted marks there are
     a seals mark is above 1                           the first such, counted from 0
     a trusted mark is above 1                         the first such, counted from 0
  3  a chain's or a piece's paper is not there         its number
  5  the line can't be read, and is left out           the line
";

// What the command line asks for.
enum Request {
    Help,
    Version,
    Input,
    File(String),
}

fn read_args(rt: &HostRuntime) -> anyhow::Result<Request> {
    let mut args = env::args(rt)?;
    let _ = args.next();
    let Some(first) = args.next() else {
        return Ok(Request::Input);
    };
    if args.next().is_some() {
        return Err(anyhow!("one file at most; `permit --help` says more"));
    }
    Ok(match first.as_str() {
        "--help" => Request::Help,
        "--version" => Request::Version,
        _ => Request::File(first),
    })
}

// All bytes of standard input.
fn read_input(rt: &HostRuntime) -> anyhow::Result<Vec<u8>> {
    let mut text = Vec::new(rt.alloc());
    rt.stdin().read_to_end(&mut text)?;
    Ok(text)
}

// All bytes of a file.
fn read_file(rt: &HostRuntime, path: &str) -> anyhow::Result<Vec<u8>> {
    match fs::read(rt, path) {
        Ok(text) => Ok(text),
        Err(why) => Err(anyhow!(format!(in rt.alloc(); "can't read {path}: {why}")?)),
    }
}

// Answers a text on standard output.
fn answer(rt: &HostRuntime, text: &[u8]) -> anyhow::Result<()> {
    let heap = rt.alloc();
    let mut out = BufWriter::new(heap, rt.stdout())?;
    answer_text(heap, text, &mut out)?;
    out.flush()?;
    Ok(())
}

fn run(rt: &HostRuntime) -> anyhow::Result<()> {
    match read_args(rt)? {
        Request::Help => Ok(rt.print(HELP)?),
        Request::Version => Ok(rt.print(VERSION)?),
        Request::Input => answer(rt, &read_input(rt)?),
        Request::File(path) => answer(rt, &read_file(rt, path.as_str())?),
    }
}

// What fails is said on standard error, and ends the program with status 1.
fn main(rt: HostRuntime) -> ExitCode {
    match run(&rt) {
        Ok(()) => ExitCode::SUCCESS,
        Err(why) => {
            let _ = eprintln!(rt; "permit: {why}");
            ExitCode::FAILURE
        }
    }
}
