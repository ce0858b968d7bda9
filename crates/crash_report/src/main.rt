// Reads a project file from standard input and prints its report, or why it is refused.
#![tactic(auto)]

ghost use Rattle.std.specs.Prelude.{◌≡◌, length};
ghost use Rattle.crash_report.specs.Printed.{input_room, report_room, text_room, project_text, StartsWith};
ghost use Rattle.crash_report.specs.Input.{InputWithin};

use header::{HEADER_LENGTH, MOST_SITES};
use input::fill_buffer;
use report::read_project;
use report_text::{put_refusal, put_report};
use site::rules::LONGEST_RECORD;
use std::io;
use std::io::Stdin;

// One byte more than the longest file: the bytes past it bear on nothing.
const INPUT_ROOM: usize = HEADER_LENGTH + MOST_SITES * LONGEST_RECORD + 1;

// The numbers of the longest report, and the bytes of its text.
const REPORT_ROOM: usize = 4 * (MOST_SITES + 1);

const TEXT_ROOM: usize = 21 * REPORT_ROOM;

// Reads standard input into a buffer that has room for the longest file and one byte more.
fn read_input(stdin: &mut Stdin, buffer: &mut [u8]) -> io::Result<usize>
    requires { length buffer.old ≡ input_room }
    ensures { InputWithin result (length buffer.new) }
{
    fill_buffer(stdin, buffer)
}

// The text of a file's report or refusal, from the start of a buffer: its length.
fn project_text(file: &[u8], report: &mut [u64], text: &mut [u8]) -> usize
    requires { (length report.old ≡ report_room) × (length text.old ≡ text_room) }
    ensures { StartsWith (project_text file.now) result text.new }
{
    match read_project(file, report) {
        Ok(count) => put_report(&report[..count], text),
        Err(refused) => put_refusal(u64::from(refused.refusal), refused.place, text),
    }
}

// Prints the answer for a file in one piece, or tells that a write failed.
fn print_answer(rt: &HostRuntime, file: &[u8]) {
    let mut report = [0u64; REPORT_ROOM];
    let mut text = [0u8; TEXT_ROOM];
    let n = project_text(file, &mut report, &mut text);
    if rt.write_all(&text[..n]).is_err() {
        let _ = eprintln!(rt; "crash_report: writing failed");
    }
}

// Reads standard input, then prints the answer, or tells that a read failed.
fn main(rt: HostRuntime) {
    let mut file = [0u8; INPUT_ROOM];
    match read_input(&mut rt.stdin(), &mut file) {
        Ok(n) => print_answer(&rt, &file[..n]),
        Err(_) => {
            let _ = eprintln!(rt; "crash_report: reading failed");
        }
    }
}
