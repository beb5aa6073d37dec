// Replays a session file: reads each frame, says what it means and writes it back; then who of those that sent orders may meet whom, and who goes ahead.
#![tactic(auto)]

mod audience;
mod engines;
mod gathered;
mod meetings;
mod orders_kept;
mod people;
mod queues;
mod run;
mod settings;

fn main(rt: HostRuntime) -> anyhow::Result<()> {
    run::run(&rt)
}
