// What operations come to: definitions in specs/ and their laws in proofs/, over any result and any refusal; and what every refusal tells.
#![tactic(auto)]

ghost use Rattle.std.specs.Prelude.{◌≡◌, ℕ};

// Why an operation turns its input back: a number of the documents, and a place.
pub trait Refusal: Copy {
    ghost number_of: { Self → ℕ };

    ghost place_of: { Self → ℕ };

    fn number(self) -> u64
        ensures result { result ≡ number_of self };

    fn place(self) -> u64
        ensures result { result ≡ place_of self };
}
