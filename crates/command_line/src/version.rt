//! The version of the program.

/// The version of the program, as `--version` and the metric `darbexum_build_info` have it.
pub const VERSION: &str = "0.3.0";
