//! Of which space a history is.

use std::marker::Brand;

/// Of which setting the space is. A program picks it at the call that makes the history.
pub trait Setup {
    ghost use Rattle.sp_rules.specs.Classes.{Setting};

    ghost setting: { Setting };
}

impl Setup for Brand {
    ghost use Rattle.sp_history.specs.Settings.{no_setting};

    ghost setting = { no_setting };
}
