//! Writing an answer to the place that C gives for it.

ghost use Rattle.std.specs.Prelude.{◌≡◌, ◌≢◌, ◌<◌, ◌≤◌, drop, length, take};

use crate::status::TOO_SMALL;

/// Writes bytes to the front of a slice, and answers the status; `written` is how many they are.
/// Where they do not fit, none is written, and the status says so.
pub(crate) fn write_out(told: &[u8], out: &mut [u8], written: &mut usize, status: u32) -> u32
    requires { status ≢ 4 }
    ensures size { written.new ≡ length told.now }
    ensures status { result ≢ 4 → result ≡ status }
    ensures within { result ≢ 4 → written.new ≤ length out.old }
    ensures told { result ≢ 4 → take written.new out.new ≡ told.now }
    ensures rest { result ≢ 4 → drop written.new out.new ≡ drop written.new out.old }
    ensures untold { result ≡ 4 → out.new ≡ out.old }
    ensures small { result ≡ 4 → length out.old < length told.now }
{
    *written = told.len();
    if out.len() < told.len() {
        return TOO_SMALL;
    }
    out[..told.len()].copy_from_slice(told);
    status
}
