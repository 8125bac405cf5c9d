//! What holds of all lines: functions without a body, whose contracts are the laws.
ghost use Rattle.std.specs.Prelude.{◌≡◌, Some};
ghost use Rattle.lab_script.specs.KeysLines.{line_of};
ghost use Rattle.lab_script.specs.LabLines.{lab_line_of};
ghost use Rattle.lab_script.specs.LabPrinted.{IsLabLine, lab_words};
ghost use Rattle.lab_script.specs.Printed.{IsLine, words_in};
ghost use Rattle.lab_script.specs.declared.line.KeysLine.{KeysLine};
ghost use Rattle.lab_script.specs.declared.named.NamedLine.{NamedLine};

/// The words of a keys script's line whose fields are in their ranges are read as that line.
pub fn words_law()
    ensures { (line : KeysLine) → IsLine line → line_of (words_in line) ≡ Some line }
{}

/// The words of a lab script's line whose fields are in their ranges are read as that line.
pub fn lab_words_law()
    ensures { (line : NamedLine) → IsLabLine line → lab_line_of (lab_words line) ≡ Some line }
{}
