//! Processor time.

use std::time::{CpuClock, Duration};

/// The processor time of the process.
pub fn now(rt: &HostRuntime) -> Option<Duration> {
    rt.process_cpu_time().ok()
}
