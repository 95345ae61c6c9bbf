// What a load gives, copied.
ghost use Rattle.std.specs.Prelude.{◌≡◌, ℕ, ◌+◌, ◌^◌, ◌<◌, length, slice_index};
ghost use Rattle.elf_image.specs.Copies.{given_or};

use crate::LoadPart;

impl<'a> LoadPart<'a> {
    /// Copies what the load gives of the bytes from an address on over those that are there.
    pub fn copy_over(&self, bytes: &mut [u8], start: usize)
        requires { start + length bytes.old < 2 ^ 63 }
        ensures { (k : ℕ) → k < length bytes.old → slice_index bytes.new k ≡ given_or self.now.address self.now.bytes.now (start + k) (slice_index bytes.old k) }
    {
        let address = self.address as usize;
        let first = address.max(start);
        let end = (address + self.bytes.len()).min(start + bytes.len());
        if first < end {
            bytes[first - start..end - start].copy_from_slice(
                &self.bytes[first - address..end - address],
            );
        }
    }
}
