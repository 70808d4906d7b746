//! Laws of plain halves, each the contract of a function that does nothing.

ghost use Rattle.cd_halves.specs.PlainHalves.{QueriesComeBack, ResponsesComeBack, QueriesAreSpelled, ResponsesAreSpelled};

/// A plain query is rebuilt to its own message.
pub fn plain_queries_come_back()
    ensures { QueriesComeBack }
{}

/// A plain response is rebuilt to its own message.
pub fn plain_responses_come_back()
    ensures { ResponsesComeBack }
{}

/// What is written of a plain half, where it is not too long, is read as its own message, to the last byte.
pub fn plain_halves_are_spelled()
    ensures queries { QueriesAreSpelled }
    ensures responses { ResponsesAreSpelled }
{}
