// Calls on a machine, each with a line of what it answers.
use crate::arguments::Request;
use bytecode::refusal::Report;
use host::Host;
use machine::Machine;
use std::io;

// Makes a call.
fn answer<H: Host>(
    rt: &HostRuntime,
    machine: &mut Machine<'_, '_>,
    host: &mut H,
    request: Request,
) -> io::Result<()> {
    let refused = match request {
        Request::Run(allowance) => match machine.run(host, allowance) {
            Ok(outcome) => return println!(rt; "{outcome}"),
            Err(over) => Report::from(over),
        },
        Request::Look(frame) => match machine.look(frame) {
            Ok(view) => return println!(rt; "{view}"),
            Err(no_frame) => Report::from(no_frame),
        },
    };
    println!(rt; "refused {refused}")
}

/// Makes the calls in their order.
pub fn play<H: Host>(
    rt: &HostRuntime,
    machine: &mut Machine<'_, '_>,
    host: &mut H,
    requests: &[Request],
) -> io::Result<()> {
    for request in requests {
        answer(rt, machine, host, *request)?;
    }
    Ok(())
}
