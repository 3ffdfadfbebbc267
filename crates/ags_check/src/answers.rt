//! The answers of the check over the values that certificates have. Each is the type of `ags_verdict`, whose definitions
//! speak of any domain.

use ags_domain::Value;

/// The verdict of a certificate: certified, with how many rows and cases it has, or refused.
pub type Verdict = ags_verdict::Verdict<Value>;

/// The first item of a certificate that fails.
pub type Refusal = ags_verdict::Refusal<Value>;

/// What fails first in a row.
pub type RowFault = ags_verdict::RowFault<Value>;
