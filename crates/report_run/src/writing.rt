// Output.
ghost use Rattle.std.specs.Prelude.{◌≡◌, ◌≤◌, ◌<◌, true, false, ℕ, length, take};
ghost use Rattle.desk.specs.Causes.{Rose, AppendedIfTold};

use desk::Sink;

/// Puts what isn't taken yet until all is: false where a put failed. A part of `text` may then have been taken.
pub fn put_all<K: Sink>(out: &mut K, text: &[u8]) -> bool
    ensures all { result ≡ true → AppendedIfTold (K.taken out.old) (K.taken out.new) text.now }
    ensures cut { result ≡ false → (n : ℕ) × (n < length text.now) × AppendedIfTold (K.taken out.old) (K.taken out.new) (take n text.now) }
    ensures failed { result ≡ false → Rose (K.faults out.old) (K.faults out.new) }
    ensures later { K.faults out.old ≤ K.faults out.new }
{
    let mut at = 0;
    while at < text.len() {
        match out.put(&text[at..]) {
            Ok(count) => at += count,
            Err(_) => return false,
        }
    }
    true
}
