// Lists the start image on standard input: what it will do, record by record.
#![tactic(auto)]

use image::LIMIT;
use report::list;
use std::io::Read;

// One byte more than the longest image tells that an image is too long.
const MOST: u64 = LIMIT as u64 + 1;

fn run(rt: &HostRuntime) -> anyhow::Result<()> {
    let heap = rt.alloc();
    let mut bytes = Vec::new(heap);
    rt.stdin().take(MOST).read_to_end(&mut bytes)?;
    let text = list(heap, &bytes)?;
    rt.print(text.as_str())?;
    Ok(())
}

fn main(rt: HostRuntime) -> anyhow::Result<()> {
    run(&rt)
}
