//! The report on output streams.
ghost use Rattle.std.specs.Prelude.{◌≡◌, ◌<◌, ◌++◌, IfOk, OnOk, length};
ghost use Rattle.cg_command_run.specs.Turns.{outputs_to, stream_line, port_report, streams_report};

use cg_model::{Kernel, Words};
use std::alloc::{AllocError, Global};

/// Returns a line for each port that an output of the kernel names, in ascending order.
pub(crate) fn streams_report(
    alloc: Global,
    kernel: &Kernel,
    streams: &[Words],
) -> Result<Vec<u8>, AllocError>
    requires { length streams.now ≡ 16 }
    ensures { IfOk result (λ v. v.items ≡ streams_report kernel.now streams.now) }
{
    let mut report = Vec::new(alloc);
    for port in 0..16 {
        push_port(alloc, &mut report, kernel, streams, port)?;
    }
    Ok(report)
}

/// Adds the line of `port` to `report`, if an output names it.
fn push_port(
    alloc: Global,
    report: &mut Vec<u8>,
    kernel: &Kernel,
    streams: &[Words],
    port: u32,
) -> Result<(), AllocError>
    requires { port < length streams.now }
    ensures { OnOk result (report.new.items ≡ report.old.items ++ port_report kernel.now streams.now port) }
{
    if outputs_to(kernel, port) {
        let words = streams[port as usize].as_slice();
        push_line(alloc, report, port, words)?;
    }
    Ok(())
}

/// Checks whether a node gives output to `port`.
fn outputs_to(kernel: &Kernel, port: u32) -> bool
    ensures { result ≡ outputs_to kernel.now port }
{
    kernel
        .nodes()
        .iter()
        .any(|node| node.op.is_output() && node.port == port)
}

/// Adds the line of a stream to `report`: its `port`, and its `words`, each preceded by a blank.
fn push_line(
    alloc: Global,
    report: &mut Vec<u8>,
    port: u32,
    words: &[u32],
) -> Result<(), AllocError>
    ensures { OnOk result (report.new.items ≡ report.old.items ++ stream_line port words.now) }
{
    let head = format!(in alloc; "out {port}:")?;
    report.extend_from_slice(head.as_bytes())?;
    for word in words {
        let text = format!(in alloc; " {word}")?;
        report.extend_from_slice(text.as_bytes())?;
    }
    report.push(b'\n')?;
    Ok(())
}
