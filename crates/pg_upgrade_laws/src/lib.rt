//! What an upgrade of a certificate keeps. Each law is a function that does nothing: its contract is the law.
#![tactic(auto)]

ghost use Rattle.pg_upgrade_laws.specs.UpgradeLaws.{CertifiedIsUpgraded, RefusesExactly, UpgradedIsCertified};
ghost use Rattle.pg_upgrade_laws.specs.UpgradeLaws.{UpgradesExactly};

/// Bytes are upgraded exactly where they are a header of version 1 and then no more records of version 1 than are
/// allowed, and the answer is the number of these.
pub fn upgrades_exactly()
    ensures { UpgradesExactly }
{}

/// Where each refusal of bytes stands: Truncated exactly at fewer than 37 bytes, and where less than a
/// whole record stands behind fewer records than are allowed; NotVersion1 exactly at 37 bytes or more
/// that begin with no header of version 1; UnknownRecord exactly at the first byte that no record of
/// version 1 can have at its place, behind fewer records; Budget exactly where bytes stand behind as
/// many records as are allowed.
pub fn refuses_exactly()
    ensures { RefusesExactly }
{}

/// A certificate of version 1 that fits fits as one of version 2. So `check` says yes to the upgraded
/// bytes wherever it does to the old ones, with the same numbers of records and of named nodes, want
/// of memory and failed reads apart.
pub fn upgraded_is_certified()
    ensures { UpgradedIsCertified }
{}

/// A certificate of version 1 to which `check` says yes is upgraded, within the same limit of records,
/// and the answer is the number of its records.
pub fn certified_is_upgraded()
    ensures { CertifiedIsUpgraded }
{}
