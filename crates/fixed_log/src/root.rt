//! The root.
ghost use Rattle.std.specs.Prelude.{◌≡◌, ◌+◌, ◌*◌, ◌^◌, ◌<◌, ◌≤◌};
ghost use Rattle.fixed_log.specs.Root.{IsRoot, root_of};

/// The greatest number whose square is at most `n`, for `n` below 2^126.
pub fn isqrt(n: u128) -> u64
    requires { n < 2 ^ 126 }
    ensures root { IsRoot n result }
    ensures value { result ≡ root_of n }
    ensures small { result < 2 ^ 63 }
{
    if n < 1 << 64 {
        short_root(n as u64)
    } else {
        n.isqrt() as u64
    }
}

// The root of a number of 64 bits: the one that was guessed, or else that by halves.
fn short_root(n: u64) -> u64
    ensures square { result * result ≤ n }
    ensures next_square { n < (result + 1) * (result + 1) }
    ensures small { result < 2 ^ 32 }
{
    let guess = guess(n);
    let square = square(guess);
    if square <= n as u128 && n as u128 - square <= 2 * guess as u128 {
        guess
    } else {
        n.isqrt()
    }
}

fn square(a: u64) -> u128
    ensures { result ≡ a * a }
{
    a as u128 * a as u128
}

// What is mostly the root, by Newton's method from the nearest power of two.
fn guess(n: u64) -> u64 {
    let half = (64 - n.leading_zeros().min(64)) / 2;
    let first = (n >> half).wrapping_add(1 << half) / 2;
    let root = nearer(n, nearer(n, nearer(n, first)));
    if n < root.wrapping_mul(root) {
        root.wrapping_sub(1)
    } else {
        root
    }
}

// A step of Newton's method.
fn nearer(n: u64, root: u64) -> u64 {
    root.wrapping_add(n / root.max(1)) / 2
}
