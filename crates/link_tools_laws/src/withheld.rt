//! The law that `list` and `unpack` withhold no determined text.
//!
//! The contract of each function is a law, and the function does nothing when it runs. The proof of
//! the first uses the contract of the call in it.

ghost use Rattle.std.specs.Prelude.{List, ℕ};
ghost use Rattle.link_tool_option_types.specs.declared.wanted.Wanted.{Wanted};
ghost use Rattle.link_wire.specs.Bytes.{AreBytes};
ghost use Rattle.link_tool_list.specs.Listing.{list_tool};
ghost use Rattle.link_run_judge.specs.Unpacking.{unpack_tool};
ghost use Rattle.link_run.specs.Run.{Tool};
ghost use Rattle.link_tools_laws.specs.Withheld.{SaysLess, HasLongestSoFar};

use link_wire::laws::exactly_one_reading;

/// For `list` and `unpack`, nothing is missing from the texts that some bytes determine.
///
/// Take all inputs that begin with these bytes. If all their outputs begin with the same text, the
/// determined output begins with this text too. If all their reports begin with the same whole
/// lines, the determined report begins with these lines too.
pub fn sofar_is_all()
    ensures list { (bytes : List ℕ) → AreBytes bytes → HasLongestSoFar list_tool bytes }
    ensures unpack { (wanted : Wanted) (bytes : List ℕ) → AreBytes bytes
        → HasLongestSoFar (unpack_tool wanted) bytes }
{
    exactly_one_reading();
}

/// A definition that withholds something breaks the law.
///
/// Let the definition `less` agree with the tool on all whole inputs. After some bytes, let it lack
/// bytes of the output, or whole lines of the report. Then the law `sofar_is_all` does not hold of
/// `less`.
pub fn less_is_not_all()
    ensures list { (less : Tool) (bytes : List ℕ) → SaysLess list_tool less bytes
        → HasLongestSoFar less bytes → ⊥ }
    ensures unpack { (wanted : Wanted) (less : Tool) (bytes : List ℕ)
        → SaysLess (unpack_tool wanted) less bytes → HasLongestSoFar less bytes → ⊥ }
{}
