//! A worked reading.

ghost use Rattle.std.specs.Prelude.{◌≡◌, Ok};
ghost use Rattle.config_text.specs.Reading.{config_of};
ghost use Rattle.config_text.specs.Worked.{four_text, four_table};

/// The file of the built-in table of four elements, exactly as a user writes it, reads as that table.
pub fn reads_four_elements()
    ensures { config_of four_text ≡ Ok four_table }
{}
