// What 'whole' means, without the run: the messages of a connection since its opening are those of the bytes taken.
#![tactic(auto)]

ghost use Rattle.whole.specs.Since.{MessagesOfBytes};

// Of each connection since its opening, the messages handed to the rules are those of the bytes taken.
pub fn messages_of_bytes()
    ensures { MessagesOfBytes }
{}
