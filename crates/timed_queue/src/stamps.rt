// The times of the rows that a queue keeps, oldest first, zeros behind.
ghost use Rattle.std.specs.Prelude.{◌≡◌, ◌+◌, ◌≤◌, length};
ghost use Rattle.basics.specs.Memory.{placed};
ghost use Rattle.queue.specs.Queues.{last_rows};
ghost use Rattle.timed_queue.specs.Stamps.{stored_times, PutAsked, Lays, KeepAsked};

use alf::Stamp;

// Times at the front of a list; behind them it stays as it is.
fn put(from: &[u64], out: &mut [u64])
    requires { PutAsked from.now out.old }
    ensures { out.new ≡ placed out.old 0 from.now }
{
    out[..from.len()].copy_from_slice(from);
}

// Times as a queue holds them: zeros behind.
fn store(part: &[u64]) -> [u64; 16]
    requires { length part.now ≤ 16 }
    ensures { result ≡ stored_times part.now }
{
    let mut times = [0u64; 16];
    put(part, &mut times);
    times
}

// The times kept, and one behind them.
pub fn lay(times: [u64; 16], kept: usize, time: Stamp) -> [u64; 17]
    requires { kept ≤ 16 }
    ensures { Lays times kept time.0 result }
{
    let mut all = [0u64; 17];
    put(&times[..kept], &mut all);
    all[kept] = time.0;
    all
}

// The last k of kept + 1 times.
pub fn keep(all: &[u64], kept: usize, k: usize) -> [u64; 16]
    requires { KeepAsked all.now kept k }
    ensures { result ≡ stored_times (last_rows 1 k (kept + 1) all.now) }
{
    if kept < k {
        return store(all);
    }
    store(&all[1..])
}
