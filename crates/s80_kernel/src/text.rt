// The methods of the kernel, as a chunk file.
ghost use Rattle.std.specs.Prelude.{◌≡◌};
ghost use Rattle.s80_kernel.specs.Text.{kernel_text};

const TEXT: &[u8] = br"!Object methodsFor: 'kernel'!
== anObject <primitive: 110>!
= anObject ^self == anObject!
~= anObject ^(self = anObject) not!
~~ anObject ^(self == anObject) not!
class <primitive: 111>!
yourself ^self!
isNil ^false!
notNil ^true!
at: index <primitive: 60> ^self primitiveFailed!
at: index put: anObject <primitive: 61> ^self primitiveFailed!
size <primitive: 62> ^0!
perform: aSymbol <primitive: 83> ^self primitiveFailed!
printString <primitive: 133>!
error: aString <primitive: 129> ^self error: 'error'!
primitiveFailed ^self error: 'primitive failed'!
subclassResponsibility ^self error: 'subclass responsibility'!
halt ^self error: 'halt'! !
!Behavior methodsFor: 'kernel'!
new <primitive: 70> ^self new: 0!
new: size <primitive: 71> ^self primitiveFailed! !
!UndefinedObject methodsFor: 'kernel'!
isNil ^true!
notNil ^false! !
!True methodsFor: 'kernel'!
& aBoolean ^aBoolean!
| aBoolean ^self!
not ^false!
and: aBlock ^aBlock value!
or: aBlock ^self!
ifTrue: aBlock ^aBlock value!
ifFalse: aBlock ^nil!
ifTrue: a ifFalse: b ^a value!
ifFalse: a ifTrue: b ^b value! !
!False methodsFor: 'kernel'!
& aBoolean ^self!
| aBoolean ^aBoolean!
not ^true!
and: aBlock ^self!
or: aBlock ^aBlock value!
ifTrue: aBlock ^nil!
ifFalse: aBlock ^aBlock value!
ifTrue: a ifFalse: b ^b value!
ifFalse: a ifTrue: b ^a value! !
!Magnitude methodsFor: 'kernel'!
max: other ^self > other ifTrue: [self] ifFalse: [other]!
min: other ^self < other ifTrue: [self] ifFalse: [other]!
between: low and: high ^self >= low and: [self <= high]! !
!Character methodsFor: 'kernel'!
value <primitive: 130>!
< other ^self value < other value!
> other ^self value > other value!
<= other ^self value <= other value!
>= other ^self value >= other value! !
!Character class methodsFor: 'kernel'!
value: anInteger <primitive: 131> ^self primitiveFailed! !
!Number methodsFor: 'kernel'!
abs ^self < 0 ifTrue: [0 - self] ifFalse: [self]!
negated ^0 - self!
to: stop do: aBlock | i | i _ self. [i <= stop] whileTrue: [aBlock value: i. i _ i + 1]! !
!Integer methodsFor: 'kernel'!
timesRepeat: aBlock | n | n _ 1. [n <= self] whileTrue: [aBlock value. n _ n + 1]!
even ^self \\ 2 = 0!
odd ^self even not! !
!SmallInteger methodsFor: 'kernel'!
+ n <primitive: 1> ^self primitiveFailed!
- n <primitive: 2> ^self primitiveFailed!
< n <primitive: 3> ^self primitiveFailed!
> n <primitive: 4> ^self primitiveFailed!
<= n <primitive: 5> ^self primitiveFailed!
>= n <primitive: 6> ^self primitiveFailed!
= n <primitive: 7> ^false!
~= n <primitive: 8> ^true!
* n <primitive: 9> ^self primitiveFailed!
/ n <primitive: 10> ^self primitiveFailed!
\\ n <primitive: 11> ^self primitiveFailed!
// n <primitive: 12> ^self primitiveFailed!
bitAnd: n <primitive: 14> ^self primitiveFailed!
bitOr: n <primitive: 15> ^self primitiveFailed!
bitXor: n <primitive: 16> ^self primitiveFailed!
bitShift: n <primitive: 17> ^self primitiveFailed! !
!Collection methodsFor: 'kernel'!
isEmpty ^self size = 0!
do: aBlock ^self subclassResponsibility!
inject: start into: aBlock | next | next _ start. self do: [:each | next _ aBlock value: next value: each]. ^next!
includes: anObject self do: [:each | each = anObject ifTrue: [^true]]. ^false!
detect: aBlock ifNone: other self do: [:each | (aBlock value: each) ifTrue: [^each]]. ^other value! !
!SequenceableCollection methodsFor: 'kernel'!
species ^self class!
first ^self at: 1!
last ^self at: self size!
do: aBlock 1 to: self size do: [:i | aBlock value: (self at: i)]!
= other self class == other class ifFalse: [^false]. self size = other size ifFalse: [^false]. 1 to: self size do: [:i | (self at: i) = (other at: i) ifFalse: [^false]]. ^true!
, other | result n | n _ self size. result _ self species new: n + other size. 1 to: n do: [:i | result at: i put: (self at: i)]. 1 to: other size do: [:i | result at: n + i put: (other at: i)]. ^result!
collect: aBlock | result | result _ Array new: self size. 1 to: self size do: [:i | result at: i put: (aBlock value: (self at: i))]. ^result! !
!ArrayedCollection class methodsFor: 'kernel'!
with: a ^(self new: 1) at: 1 put: a; yourself!
with: a with: b ^(self new: 2) at: 1 put: a; at: 2 put: b; yourself! !
!String methodsFor: 'kernel'!
at: index <primitive: 63> ^self primitiveFailed!
at: index put: aCharacter <primitive: 64> ^self primitiveFailed!
asSymbol <primitive: 132>!
asString ^self! !
!Symbol methodsFor: 'kernel'!
= other ^self == other!
species ^String!
asString ^'' , self! !
!BlockContext methodsFor: 'kernel'!
value <primitive: 81> ^self primitiveFailed!
value: a <primitive: 81> ^self primitiveFailed!
value: a value: b <primitive: 81> ^self primitiveFailed!
value: a value: b value: c <primitive: 81> ^self primitiveFailed!
whileTrue: aBlock ^[self value] whileTrue: [aBlock value]!
whileFalse: aBlock ^[self value] whileFalse: [aBlock value]!
whileTrue ^[self value] whileTrue: []! !
!TextCollector methodsFor: 'kernel'!
show: aString <primitive: 128> ^self primitiveFailed!
print: anObject ^self show: anObject printString!
space ^self show: ' '!
cr ^self show: ((String new: 1) at: 1 put: (Character value: 10); yourself)! !
!Message methodsFor: 'kernel'!
selector ^selector!
arguments ^args! !
";

/// The methods of the kernel's classes, as a chunk file that is filed in over their rows.
#[tactic(auto, unfolding(crate::specs::Text::kernel_text))]
pub fn kernel_text() -> &'static [u8]
    ensures { result.now ≡ kernel_text }
{
    TEXT
}
