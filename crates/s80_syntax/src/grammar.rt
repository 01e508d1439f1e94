// Laws of the grammar: each is what its function ensures.
ghost use Rattle.s80_syntax.specs.Faults.{IsMethodText, IsDoItText};
ghost use Rattle.s80_syntax.specs.Laws.{OneMethod, OneDoIt, TextOrFault, NoFaultInText, OneFault, MethodTaken, DoItTaken, StopsAtFault};
ghost use Rattle.s80_syntax.specs.Stack.{method_start, doit_start};

/// Tokens have at most one tree, read as a method.
pub fn one_method_tree()
    ensures { OneMethod }
{}

/// Tokens have at most one tree, read as a doIt.
pub fn one_doit_tree()
    ensures { OneDoIt }
{}

/// Tokens are a lawful method or have a fault.
pub fn method_or_fault()
    ensures { TextOrFault IsMethodText }
{}

/// Tokens are a lawful doIt or have a fault.
pub fn doit_or_fault()
    ensures { TextOrFault IsDoItText }
{}

/// A lawful method has no fault.
pub fn no_fault_in_method()
    ensures { NoFaultInText IsMethodText }
{}

/// A lawful doIt has no fault.
pub fn no_fault_in_doit()
    ensures { NoFaultInText IsDoItText }
{}

/// Tokens have at most one fault, read as a method.
pub fn one_method_fault()
    ensures { OneFault IsMethodText }
{}

/// Tokens have at most one fault, read as a doIt.
pub fn one_doit_fault()
    ensures { OneFault IsDoItText }
{}

/// Every token of a method's tree is taken.
pub fn method_taken()
    ensures { MethodTaken }
{}

/// Every token of a doIt's tree is taken.
pub fn doit_taken()
    ensures { DoItTaken }
{}

/// The run stops at a method's fault.
pub fn run_stops_at_method_fault()
    ensures { StopsAtFault IsMethodText method_start }
{}

/// The run stops at a doIt's fault.
pub fn run_stops_at_doit_fault()
    ensures { StopsAtFault IsDoItText doit_start }
{}
