// For each line `LIMIT ALLOWANCE TEXT` of standard input: the reply to the text under that step limit and allowance, and with holds the path. A line that
// starts with `#` is a comment.
#![tactic(auto)]

use line::{Reply, reply_within, shown};
use std::io::{BufRead, BufReader};
use verdicts::Verdict;
use verdicts::settings::Settings;

// One case. Nothing is returned; what is printed is held to the file `stdout`.
fn tell(rt: HostRuntime, limit: u8, allowance: u32, text: &str) -> anyhow::Result<()> {
    let settings = match Settings::new(limit, allowance) {
        Ok(settings) => settings,
        Err(refusal) => {
            println!(rt; "refused {refusal}")?;
            return Ok(());
        }
    };
    // 999 shows which places were not written
    let mut path = [999u16; 32];
    let reply = reply_within(rt.alloc(), text.as_bytes(), settings, &mut path)?;
    let line = shown(rt.alloc(), reply)?;
    rt.print(line.as_str())?;
    if let Reply::Answered(answer) = reply {
        if let Verdict::Holds(_) = answer.verdict {
            for clause in &path {
                if *clause != 999 {
                    print!(rt; " {clause}")?;
                }
            }
            println!(rt; " .")?;
        }
    }
    Ok(())
}

fn main(rt: HostRuntime) -> anyhow::Result<()> {
    for line in BufReader::new(rt.alloc(), rt.stdin())?.lines(rt.alloc()) {
        let case = line?;
        let mut words = case.as_str().splitn(3, ' ');
        let limit = words.next().unwrap_or("");
        if !limit.starts_with('#') {
            let allowance = words.next().unwrap_or("");
            let text = words.next().unwrap_or("");
            tell(rt, limit.parse()?, allowance.parse()?, text)?;
        }
    }
    Ok(())
}
