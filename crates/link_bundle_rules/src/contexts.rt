//! Rules of single security blocks (RFC 9171 section 4.3.1, RFC 9172), by a history.

use crate::history::BundleHistory;
use crate::rule::BundleRule;
use crate::rules::first_found;
use crate::source::KnownSource;
use link_rules_shared::Level;

impl BundleHistory {
    ghost use Rattle.std.specs.Prelude.{◌≡◌, ℕ, Option, None};
    ghost use Rattle.std.specs.List.{list_any};
    ghost use Rattle.link_bundle_rules.specs.History.{bundle_of};
    ghost use Rattle.link_bundle_rules.specs.Security.{may_protect_primary, primary_check, confidential_primary, security_flags, security_context, confidential_flags, confidential_context};

    /// The primary block has a check, or is a target of a block integrity block (RFC 9171 section
    /// 4.3.1). Returns the rule `primary-check` if it has no check, and cannot be such a target.
    #[tactic(auto, unfolding(crate::specs::Security::primary_check))]
    pub(crate) fn primary_check(&self, source: KnownSource) -> Option<BundleRule>
        ensures { (long_head : Option ℕ) (payload_length : ℕ)
            → result ≡ primary_check source (bundle_of self.now long_head payload_length) }
    {
        if self.primary.has_check || self.may_have_protected_primary() {
            return None;
        }
        let level = match source {
            KnownSource::Own => self.primary.level(),
            KnownSource::Any | KnownSource::Other => Level::Should,
        };
        Some(BundleRule::PrimaryCheck { level })
    }

    /// Whether a block integrity block has, or may have, the primary block as a target.
    fn may_have_protected_primary(&self) -> bool
        ensures { result ≡ list_any (may_protect_primary (bundle_of self.now None 0))
            self.now.security.items }
    {
        let security = self.security.as_slice();
        security.iter().any(|block| block.may_protect_primary(self))
    }

    /// The primary block is no target of a block confidentiality block (RFC 9172 section 3.8).
    /// Returns the rule `confidential-primary` if it is one.
    #[tactic(auto, unfolding(crate::specs::Security::confidential_primary))]
    pub(crate) fn confidential_primary(&self) -> Option<BundleRule>
        ensures { (long_head : Option ℕ) (payload_length : ℕ)
            → result ≡ confidential_primary (bundle_of self.now long_head payload_length) }
    {
        first_found(
            self.security.as_slice(),
            |block| block.if_confidential_primary(),
        )
    }

    /// Each flag of a security context is defined (RFC 9172 section 3.6). Returns the rule
    /// `security-flags` if a context sets another flag.
    #[tactic(auto, unfolding(crate::specs::Security::security_flags))]
    pub(crate) fn security_flags(&self) -> Option<BundleRule>
        ensures { (long_head : Option ℕ) (payload_length : ℕ)
            → result ≡ security_flags (bundle_of self.now long_head payload_length) }
    {
        first_found(
            self.security.as_slice(),
            |block| self.broken_if_counted(block, block.if_other_context_flags()),
        )
    }

    /// The ID of a security context is above 0, and so not reserved (RFC 9172 sections 3.6 and
    /// 11.3). Returns the rule `security-context` if an ID is reserved.
    #[tactic(auto, unfolding(crate::specs::Security::security_context))]
    pub(crate) fn security_context(&self) -> Option<BundleRule>
        ensures { (long_head : Option ℕ) (payload_length : ℕ)
            → result ≡ security_context (bundle_of self.now long_head payload_length) }
    {
        first_found(
            self.security.as_slice(),
            |block| self.broken_if_counted(block, block.if_reserved_context()),
        )
    }

    /// A block confidentiality block is not discarded if it cannot be processed. It is copied into
    /// every fragment if the payload is one of its targets (RFC 9172 section 3.8). Returns the rule
    /// `confidential-flags` if the flags of such a block permit its loss.
    #[tactic(auto, unfolding(crate::specs::Security::confidential_flags))]
    pub(crate) fn confidential_flags(&self) -> Option<BundleRule>
        ensures { (long_head : Option ℕ) (payload_length : ℕ)
            → result ≡ confidential_flags (bundle_of self.now long_head payload_length) }
    {
        first_found(
            self.security.as_slice(),
            |block| self.broken_if_counted(block, block.if_may_be_lost()),
        )
    }

    /// The context of a block confidentiality block has a cipher (RFC 9172 section 3.8, RFC 9173
    /// sections 3.1 and 5.1). Returns the rule `confidential-context` if the context of such a
    /// block is BIB-HMAC-SHA2, which has none.
    #[tactic(auto, unfolding(crate::specs::Security::confidential_context))]
    pub(crate) fn confidential_context(&self) -> Option<BundleRule>
        ensures { (long_head : Option ℕ) (payload_length : ℕ)
            → result ≡ confidential_context (bundle_of self.now long_head payload_length) }
    {
        first_found(
            self.security.as_slice(),
            |block| self.broken_if_counted(block, block.if_no_cipher()),
        )
    }
}
