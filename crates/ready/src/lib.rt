// What the machine's code may rely on: at each step its next instruction is there, and whatever that reads or writes is there too.
#![tactic(auto)]
