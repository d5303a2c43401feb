// What the definitions give at worked values, and what they give of one service.
#![tactic(auto)]

ghost use Rattle.served.specs.Served.{Served};
ghost use Rattle.served.specs.Worked.{Worked};

// Every worked case comes out of the definitions.
pub fn worked_cases()
    ensures { Worked }
{}

// A service elects two leaders, commits an order under each, and changes its members.
pub fn service_served()
    ensures { Served }
{}
