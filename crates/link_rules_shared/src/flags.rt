//! Flags that are not defined.

ghost use Rattle.std.specs.Prelude.{◌≡◌};
ghost use Rattle.link_rules_shared.specs.Flags.{has_other_flags};

/// Whether a flag is set that is not defined.
pub fn has_other_flags(defined: u64, flags: u64) -> bool
    ensures { result ≡ has_other_flags defined flags }
{
    flags & defined != flags
}
