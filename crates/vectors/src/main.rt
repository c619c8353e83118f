// Prints the findings of each plan that its arguments name, behind a line with the name.
#![tactic(auto)]

use anyhow::Context;
use std::io::Read;
use std::rt::Files;
use std::{env, fs, io};

// The findings of an input, from its first 4,096 octets.
fn show(rt: &impl Print, taken: &[u8]) -> io::Result<()> {
    let mut text = report::room();
    let k = report::answer(taken, &mut text);
    rt.write_all(&text[..k])
}

// The file of an argument.
// Stays: no plainer in one with `plans`, which reads another length, prints otherwise and takes no more than this.
fn show_file<R: Print + Files + Alloc>(rt: &R, path: &str) -> anyhow::Result<()> {
    println!(rt; "{path}")?;
    let mut taken = Vec::new(rt.alloc());
    let file = fs::open(rt, path).context(path)?;
    file.take(4_096).read_to_end(&mut taken).context(path)?;
    show(rt, &taken)?;
    Ok(())
}

// A file that cannot be read is told on standard error, and the next one is taken.
fn main(rt: HostRuntime) -> anyhow::Result<()> {
    for path in env::args(&rt)?.skip(1) {
        if let Err(why) = show_file(&rt, path.as_str()) {
            eprintln!(rt; "{why:#}")?;
        }
    }
    Ok(())
}
