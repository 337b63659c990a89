// The listing program of 01: reads a store from standard input and prints a line for each used slot and the counts.
#![tactic(auto)]

use reading::read_full;

// The buffer is longer than the longest store that is listed, so that a longer one is seen to be. `read_full` goes on after a read that
// gives only a part, and takes a read that fails for the input's end. What is printed is `lines::list`'s to say. A write that fails is let be.
fn main(rt: HostRuntime) {
    let mut input = [0u8; 65536];
    let n = read_full(&mut rt.stdin(), &mut input);
    let mut out = [0u8; 4096];
    let m = lines::list(&input[..n], &mut out);
    let _ = rt.write_all(&out[..m]);
}
