//! What is known of an array that a closure makes place by place: lemmas that the text of a session and a sale's rounds share.
#![tactic(auto)]
