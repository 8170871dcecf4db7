// What is promised of a light's readings: their range, how mixed light and strings of lamps behave, the order of light, darkness,
// the refusals of u′, v′ and the chart and of the research figures, and the mesopic reading by day and by night.
ghost use Rattle.light_promises.specs.Range.{Range};
ghost use Rattle.light_promises.specs.Research.{Research};
ghost use Rattle.light_promises.specs.Strings.{Strings};
ghost use Rattle.light_promises.specs.Lights.{Mixing, Order, Darkness, ColourRefusals, MesopicEnds};

pub fn promise_range()
    ensures { Range }
{}

pub fn promise_mixing()
    ensures { Mixing }
{}

pub fn promise_strings()
    ensures { Strings }
{}

pub fn promise_order()
    ensures { Order }
{}

pub fn promise_darkness()
    ensures { Darkness }
{}

pub fn promise_colour_refusals()
    ensures { ColourRefusals }
{}

pub fn promise_research()
    ensures { Research }
{}

pub fn promise_mesopic_ends()
    ensures { MesopicEnds }
{}
