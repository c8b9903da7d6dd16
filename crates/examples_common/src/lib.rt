// What the worked examples are said and computed by.

#![tactic(auto)]
