// Partition classes: the size of a partition by its class.
ghost use Rattle.std.specs.Prelude.{◌≡◌, if◌then◌else◌, Some, None, nat_lt};
ghost use Rattle.book.specs.Classes.{class_size};

/// The sizes of the classes 0 to 10, in sets.
const CLASS_SIZES: [u16; 11] = [0, 1, 2, 4, 8, 16, 32, 64, 128, 256, 512];

/// The sets that a partition of this class takes; none past class 10.
pub fn class_size(class: u8) -> Option<u16>
    ensures { result ≡ (if nat_lt class 11 then Some (class_size class) else None) }
{
    CLASS_SIZES.get(usize::from(class)).copied()
}
