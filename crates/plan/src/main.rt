// The planning program: the answer to what stands on standard input goes to standard output.
#![tactic(auto)]

use streams::{answer, read_to_end};

fn main(rt: HostRuntime) {
    // One byte more than a text may have: a longer input shows by it.
    let mut text = [0u8; 8193];
    let mut out = [0u8; 8192];
    let mut input = rt.stdin();
    match read_to_end(&mut input, &mut text) {
        Ok(length) => {
            let size = plan_text::answer(&text[..length], &mut out);
            answer(&rt, &out[..size]);
        }
        Err(_) => answer(&rt, b"error the input cannot be read\n"),
    }
}
