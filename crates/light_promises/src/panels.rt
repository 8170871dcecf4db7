// What is promised of panels: that X, Y and Z are given, and x, y and u′, v′ unless dark; that a white panel has the greatest; what
// a grey one's Y is; how u′, v′ and the chart are refused; and the order of X, Y and Z.
ghost use Rattle.light_promises.specs.Panels.{Panels};

pub fn promise_panels()
    ensures { Panels }
{}
