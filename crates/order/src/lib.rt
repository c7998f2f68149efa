#![tactic(auto)]

// Linearizations as pure lists over an abstract key order: the order so far, the last place of an item, insertion: specs/.
