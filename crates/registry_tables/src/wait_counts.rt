//! How many imports of each connection wait. A number that isn't written is 0.

ghost use Rattle.std.specs.Prelude.{◌≡◌, ◌==◌, ◌+◌, ◌-◌, ◌<◌, ◌^◌, ℕ, length, get_or, set, vec_capacity, if◌then◌else◌};

/// The number of the connection.
pub(crate) fn count_at(counts: &[u32], conn: u32) -> u32
    ensures { result ≡ get_or counts.now conn 0 }
{
    if (conn as usize) < counts.len() {
        counts[conn as usize]
    } else {
        0
    }
}

/// One more of the connection.
pub(crate) fn raise(counts: &mut Vec<u32>, conn: u32)
    requires room { conn < vec_capacity counts.old }
    requires small { get_or counts.old.items conn 0 < 2 ^ 31 }
    ensures counts { (other : ℕ) → get_or counts.new.items other 0 ≡ (if conn == other then 1 else 0) + get_or counts.old.items other 0 }
    ensures capacity { vec_capacity counts.new ≡ vec_capacity counts.old }
{
    write_up_to(counts, conn);
    let count = count_at(counts, conn);
    put(counts, conn, count + 1);
}

/// One fewer of the connection, where it has any.
pub(crate) fn lower(counts: &mut Vec<u32>, conn: u32)
    ensures counts { (other : ℕ) → get_or counts.new.items other 0 ≡ get_or counts.old.items other 0 - (if conn == other then 1 else 0) }
    ensures capacity { vec_capacity counts.new ≡ vec_capacity counts.old }
{
    let count = count_at(counts, conn);
    if count > 0 {
        put(counts, conn, count - 1);
    }
}

/// None of the connection.
pub(crate) fn clear(counts: &mut Vec<u32>, conn: u32)
    ensures counts { (other : ℕ) → get_or counts.new.items other 0 ≡ (if conn == other then 0 else get_or counts.old.items other 0) }
    ensures capacity { vec_capacity counts.new ≡ vec_capacity counts.old }
{
    let count = count_at(counts, conn);
    if count > 0 {
        put(counts, conn, 0);
    }
}

/// Writes the numbers that aren't written, up to that of the connection.
fn write_up_to(counts: &mut Vec<u32>, conn: u32)
    requires { conn < vec_capacity counts.old }
    ensures written { conn < length counts.new.items }
    ensures same { (other : ℕ) → get_or counts.new.items other 0 ≡ get_or counts.old.items other 0 }
    ensures capacity { vec_capacity counts.new ≡ vec_capacity counts.old }
{
    while counts.len() <= conn as usize {
        counts.push_reserved(0);
    }
}

/// Writes the number of a connection that has one.
fn put(counts: &mut Vec<u32>, conn: u32, count: u32)
    requires { conn < length counts.old.items }
    ensures items { counts.new.items ≡ set counts.old.items conn count }
    ensures capacity { vec_capacity counts.new ≡ vec_capacity counts.old }
{
    counts[conn as usize] = count;
}
