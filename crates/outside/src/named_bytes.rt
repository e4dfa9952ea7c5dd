//! The bytes of one name of a shelf in memory.

ghost use Rattle.std.specs.Prelude.{◌≡◌, ◌≤◌, ◌-◌, min, length, drop, vec_len};
ghost use Rattle.outside.specs.Shelf.{ReadsFrom, raised_reach};

/// The bytes of a name, how often reads of it failed, and the greatest offset up to which reads gave bytes.
#[derive(Drop)]
pub struct NamedBytes {
    pub bytes: Vec<u8>,
    pub faults: u64,
    pub reach: u64,
    pub ghost within: { reach ≤ vec_len bytes },
}

impl NamedBytes {
    /// Copies the bytes from an offset on, as many as there are and fit, and gives their count.
    pub fn read(&mut self, at: u64, into: &mut [u8]) -> usize
        ensures reads { ReadsFrom self.old.bytes.items at result into.new }
        ensures count { result ≡ min (length into.old) (length self.old.bytes.items - at) }
        ensures rest { drop result into.new ≡ drop result into.old }
        ensures reach { self.new.reach ≡ raised_reach self.old.reach at result }
        ensures bytes { self.new.bytes ≡ self.old.bytes }
        ensures faults { self.new.faults ≡ self.old.faults }
    {
        let count = copy_at(&self.bytes, at, into);
        if count > 0 {
            self.reach = self.reach.max(at + count as u64);
        }
        count
    }
}

/// Copies bytes from an offset on, as many as there are and fit, and gives their count.
fn copy_at(bytes: &[u8], at: u64, into: &mut [u8]) -> usize
    ensures reads { ReadsFrom bytes.now at result into.new }
    ensures count { result ≡ min (length into.old) (length bytes.now - at) }
    ensures rest { drop result into.new ≡ drop result into.old }
{
    if at >= bytes.len() as u64 {
        return 0;
    }
    let from = &bytes[at as usize..];
    let count = from.len().min(into.len());
    into[..count].copy_from_slice(&from[..count]);
    count
}
