// Reads site.bin and sheet.bin, runs the sheet from the fresh plant, and prints the counts and the panel.
#![tactic(auto)]

ghost use Rattle.std.specs.Prelude.{◌≤◌, length};

use refusal::Refusal;
use report::Outcome;
use std::io::Read;
use std::rt::Files;
use std::{fs, io};

// The bytes of a file, as many as buf has room for; none where it cannot be opened.
fn load<'a>(rt: &impl Files, path: &str, buf: &'a mut [u8]) -> &'a [u8]
    ensures { length result.now ≤ length buf.old }
{
    match fs::open(rt, path) {
        Ok(mut file) => read_full(&mut file, buf),
        Err(_) => &[],
    }
}

// Reads until buf is full, the input ends or a read fails: the bytes that were read.
fn read_full<'a>(from: &mut impl Read, buf: &'a mut [u8]) -> &'a [u8]
    ensures { length result.now ≤ length buf.old }
{
    let mut done = 0;
    while done < buf.len() {
        match from.read(&mut buf[done..]) {
            Ok(0) | Err(_) => break,
            Ok(n) => done += n,
        }
    }
    &buf[..done]
}

// The lines of the first n crossings, as far as the panel has them.
fn print_panel(rt: &impl Print, panel: &[u8], n: u8) -> io::Result<()> {
    for (i, row) in panel.chunks_exact(16).take(usize::from(n)).enumerate() {
        print!(rt; "{i}:")?;
        for byte in row {
            print!(rt; " {byte:02x}")?;
        }
        println!(rt;)?;
    }
    Ok(())
}

// All that is printed.
fn print(rt: &impl Print, report: Result<Outcome, Refusal>, panel: &[u8]) -> io::Result<()> {
    match report {
        Ok(
            Outcome {
                n,
                taken,
                refused,
                written,
            },
        ) => {
            println!(rt; "taken {taken} refused {refused} written-off {written}")?;
            print_panel(rt, panel, n)
        }
        Err(refusal) => println!(rt; "refused {}", refusal.number()),
    }
}

// The buffers have one byte more than the longest book and the longest sheet, so that a longer file has a wrong length.
fn main(rt: HostRuntime) -> io::Result<()> {
    let mut site = [0u8; 74];
    let mut sheet = [0u8; 16387];
    let mut panel = [0u8; 128];
    let site = load(&rt, "site.bin", &mut site);
    let sheet = load(&rt, "sheet.bin", &mut sheet);
    let report = report::report(site, sheet, &mut panel);
    print(&rt, report, &panel)
}
