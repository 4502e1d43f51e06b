//! Whether a thread sleeps, as the system says it. A thread that spins or yields never does.

use std::fs;

/// The number by which the system knows this thread; 0 where it doesn't say.
pub fn own_number(host: HostRuntime) -> u64 {
    let Ok(stat) = fs::read_to_string(&host, "/proc/thread-self/stat") else {
        return 0;
    };
    let mut words = stat.split(' ');
    match words.next() {
        Some(number) => number.parse::<u64>().unwrap_or(0),
        None => 0,
    }
}

/// Whether the thread of this number sleeps: it neither runs nor is ready to run.
pub fn is_asleep(host: HostRuntime, thread: u64) -> bool {
    let Ok(path) = format!(in host.alloc(); "/proc/self/task/{thread}/stat") else {
        return false;
    };
    match fs::read_to_string(&host, path) {
        Ok(stat) => stat.contains(") S "),
        Err(_error) => false,
    }
}
