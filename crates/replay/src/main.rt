// Replays a session file: reads each frame, says what it means and writes it back.
#![tactic(auto)]

mod audience;
mod run;
#[cfg(test)]
mod tests;

fn main(rt: HostRuntime) -> anyhow::Result<()> {
    run::run(&rt)
}
