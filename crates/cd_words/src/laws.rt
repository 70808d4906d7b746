//! Laws of the language: contracts of functions that do nothing.

ghost use Rattle.cd_words.specs.Compact.{compact};
ghost use Rattle.cd_words.specs.Drill.{drill, drill_word_of};
ghost use Rattle.cd_words.specs.Laws.{NumbersAreDecimal, OptionsHaveNames, OptionsHaveValues};
ghost use Rattle.cd_words.specs.Laws.{LinesOrBreaks, CommandsAreOne, CommandsAreValid};
ghost use Rattle.cd_words.specs.Options.{word_of};
ghost use Rattle.cd_words.specs.Reading.{reading, reading_word_of};

/// A law: bytes are a number exactly where they are what std writes of it. It does nothing.
pub fn numbers_are_decimal()
    ensures { NumbersAreDecimal }
{}

/// A law: the word of each option names this option. It does nothing.
pub fn options_have_names()
    ensures compact { OptionsHaveNames compact word_of }
    ensures reading { OptionsHaveNames reading reading_word_of }
    ensures drill { OptionsHaveNames drill drill_word_of }
{}

/// A law: each option has a value that a word says. It does nothing.
pub fn options_have_values()
    ensures compact { OptionsHaveValues compact }
    ensures reading { OptionsHaveValues reading }
    ensures drill { OptionsHaveValues drill }
{}

/// A law: words are a command line, or break a rule at exactly one place. It does nothing.
pub fn words_are_a_line_or_break_a_rule()
    ensures { LinesOrBreaks }
{}

/// A law: words say at most one command. It does nothing.
pub fn words_say_at_most_one_command()
    ensures { CommandsAreOne }
{}

/// A law: the settings of a command that words say are valid. It does nothing.
pub fn commands_have_valid_settings()
    ensures { CommandsAreValid }
{}
