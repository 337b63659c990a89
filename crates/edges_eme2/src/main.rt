// Edges: makes EME2's calls for C on both sides of every edge of their three refusals and of the wide block, and prints a line for each.
//
//     key 48 data 16 message 2064 encipher 0 1a2b3c4d undone
//     key 47 data 16 message 2064 encipher 1 kept
//
// The numbers are the lengths and the call's answer. Where the answer is 0, the digest of the message follows, and whether the call of the
// other direction then gave the message back; where it is a refusal, whether the message is as it was.
// The lines to expect are the second implementation's (host/rust/second/examples/edges_eme2.rs).
#![tactic(auto)]

ghost use Rattle.lagunedo.specs.Calls.{Eme2Called};

use patterns::{digest, fill, is_pattern};
use std::io;

// None, and beside the two lengths of a key that 01 takes.
const KEYS: [usize; 7] = [0, 47, 48, 49, 63, 64, 65];
// None, and beside one block and the longest associated data.
const DATA: [usize; 7] = [0, 1, 15, 16, 17, 1024, 1025];
// Beside the shortest and the longest message, and beside blocks 129 and 257, where a new mask begins.
const MESSAGES: [usize; 11] = [15, 16, 17, 2048, 2049, 2064, 2065, 4096, 4112, 65536, 65537];

fn main(rt: HostRuntime) -> io::Result<()> {
    let mut key = [0u8; 65];
    let mut ad = [0u8; 1025];
    let mut message = [0u8; 65537];
    fill(&mut key, 7, 1);
    fill(&mut ad, 11, 5);
    every_key(&rt, &key, &ad, &mut message)
}

// Every length of the key with every length of the associated data and of the message, 7 by 7 by 11, each at the front of the longest one.
// No struct of what is lent: each of the three functions cuts one of them shorter, and would make it anew.
fn every_key(
    rt: &impl Print,
    key: &[u8; 65],
    ad: &[u8; 1025],
    message: &mut [u8; 65537],
) -> io::Result<()> {
    for n in KEYS {
        every_data(rt, &key[..n], ad, message)?;
    }
    Ok(())
}

fn every_data(
    rt: &impl Print,
    key: &[u8],
    ad: &[u8; 1025],
    message: &mut [u8; 65537],
) -> io::Result<()> {
    for n in DATA {
        every_message(rt, key, &ad[..n], message)?;
    }
    Ok(())
}

fn every_message(
    rt: &impl Print,
    key: &[u8],
    ad: &[u8],
    message: &mut [u8; 65537],
) -> io::Result<()> {
    for n in MESSAGES {
        line(rt, false, key, ad, &mut message[..n])?;
        line(rt, true, key, ad, &mut message[..n])?;
    }
    Ok(())
}

// Makes one call on a fresh message, and prints its line.
fn line(rt: &impl Print, back: bool, key: &[u8], ad: &[u8], message: &mut [u8]) -> io::Result<()> {
    let direction = if back { "decipher" } else { "encipher" };
    print!(rt;
        "key {} data {} message {} {direction} ",
        key.len(),
        ad.len(),
        message.len()
    )?;
    fill(message, 3, 0);
    let r = call(back, key, ad, message);
    print!(rt; "{r}")?;
    if r == 0 {
        done(rt, back, key, ad, message)
    } else if is_pattern(message, 3, 0) {
        println!(rt; " kept")
    } else {
        println!(rt; " CHANGED")
    }
}

// The rest of the line of a call that was made: the digest, and whether the other direction undoes it.
fn done(rt: &impl Print, back: bool, key: &[u8], ad: &[u8], message: &mut [u8]) -> io::Result<()> {
    print!(rt; " {:08x}", digest(message))?;
    if call(!back, key, ad, message) == 0 && is_pattern(message, 3, 0) {
        println!(rt; " undone")
    } else {
        println!(rt; " NOT UNDONE")
    }
}

// The call for C in a direction.
fn call(back: bool, key: &[u8], ad: &[u8], message: &mut [u8]) -> u32
    ensures { Eme2Called back key.now ad.now message.old result message.new }
{
    if back {
        lagunedo::lagunedo_eme2_decipher(key, ad, message)
    } else {
        lagunedo::lagunedo_eme2_encipher(key, ad, message)
    }
}
