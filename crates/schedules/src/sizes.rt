// The standard ampere sizes of breakers.
ghost use Rattle.std.specs.Prelude.{◌≡◌};
ghost use Rattle.schedules.specs.Sizes.{is_size};

const SIZE_COUNT: usize = 37;

const SIZES: [u32; SIZE_COUNT] = [
    15, 20, 25, 30, 35, 40, 45, 50, 60, 70, 80, 90, 100, 110, 125, 150, 175, 200, 225, 250, 300,
    350, 400, 450, 500, 600, 700, 800, 1000, 1200, 1600, 2000, 2500, 3000, 4000, 5000, 6000,
];

// Whether amperes are a size. The sizes rise, so the first that is not below the amperes decides.
// By hand: `contains` is compiled with an attribute that the chips' build does not know (chips/portable.awk).
pub fn is_size(amperes: u32) -> bool
    ensures result { result ≡ is_size amperes }
{
    for size in SIZES {
        if amperes <= size {
            return amperes == size;
        }
    }
    false
}
