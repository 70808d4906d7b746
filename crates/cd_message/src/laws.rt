//! Laws of messages that are read and written, each the contract of a function that does nothing.

ghost use Rattle.cd_message.specs.MessageLaws.{MessagesAreValid, MessagesLieWithin, MessagesStay, MessageWeightsAreLinear, ReadMessagesAreLight, RdataKeepsShape, ShapedRdataIsItself};
ghost use Rattle.cd_message.specs.Rules.{SpelledByRules, BrokenByRules, RulesGiveOne};
ghost use Rattle.cd_message.specs.WrittenLaws.{PartsFillShapes, WrittenMessagesAreRead};

/// A message that is read is valid.
pub fn messages_are_valid()
    ensures { MessagesAreValid }
{}

/// A message that is read lies within the payload, and takes its header at least.
pub fn messages_lie_within()
    ensures { MessagesLieWithin }
{}

/// What a payload spells it spells with more bytes after it, in as many bytes.
pub fn messages_stay()
    ensures { MessagesStay }
{}

/// A message that is read weighs at most 829 sixteenths of its bytes, however its names are compressed.
pub fn message_weights_are_linear()
    ensures { MessageWeightsAreLinear }
{}

/// A message that is read from at most 65,535 bytes weighs at most 3,400,000, however its names are compressed.
pub fn read_messages_are_light()
    ensures { ReadMessagesAreLight }
{}

/// RDATA that is read keeps its type's shape, with names without pointers, and alone it is read as itself.
pub fn rdata_keeps_its_shape()
    ensures shape { RdataKeepsShape }
    ensures itself { ShapedRdataIsItself }
{}

/// What is read is what the rules give, one by one, and so is the first rule that is broken (RFC 1035 section 4,
/// RFC 6891 section 6).
pub fn messages_follow_the_rules()
    ensures spelled { SpelledByRules }
    ensures broken { BrokenByRules }
{}

/// For each payload the rules give exactly one message with the number of its bytes, or exactly one first rule that is
/// broken, and never both.
pub fn rules_give_one()
    ensures { RulesGiveOne }
{}

/// RDATA has parts of a shape exactly if it fills that, and they are those that fill it.
pub fn parts_fill_shapes()
    ensures { PartsFillShapes }
{}

/// A valid message that is written in at most 65,535 bytes is read as itself, to the last of them.
pub fn written_messages_are_read()
    ensures { WrittenMessagesAreRead }
{}
