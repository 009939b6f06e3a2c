// What holds of racks: each function carries a theorem as its contract.
ghost use Rattle.histories.specs.Promises.{Promised};
ghost use Rattle.histories.specs.Wrong.{Happens, WrongRacks};

// A new rack of the model, whatever its two numbers, keeps the promises: cover, compare and isolation, over every list of calls.
pub fn promises_stand()
    ensures { Promised }
{}

// What they suppose can be met: a place that is started and given two more tags ends with the root's.
pub fn example_happens()
    ensures { Happens }
{}

// Racks that keep their first tag, forget to forget, exchange the sides of compare, make up a step, look at another place, follow or take
// a ticket of another rack, never open, hand out a place twice, or keep the ticket of a refused call do not keep them.
pub fn wrong_racks_fail()
    ensures { WrongRacks }
{}
