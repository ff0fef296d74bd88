//! A small language with something of each kind.

/// Its numbers: of the phyla after the three that are always there, `r` is 3, `p` 4, `xs` 5, `ID` 6 and `WHITESPACE`
/// 7; of the operators R is 0, P 1, Nil 2 and Pair 3; the equations are numbered as they stand.
pub fn language() -> &'static [u8] {
    br#"root r;
r : R(p xs ID);
p : P();
list xs;
xs : Nil() | Pair(INT xs);
ID : < "[a-z]+" >;
WHITESPACE : < "[ \n]+" >;
r { synthesized INT v; };
p { inherited INT i; synthesized INT a; inherited INT j; synthesized INT b; };
INT twice(INT n) { n + n };
r : R { local INT w; w = p.b; $$.v = twice(w) + twice(p.b + w); p.i = 1; p.j = p.a; };
p : P { local INT l; $$.a = $$.i; l = $$.a + $$.j; $$.b = l + l; };
r : R [ @ : @ @ "a%%%t%b%t%nb" ^ w ] [ ^ ::= @ .. @ $$.v ];
p : P [ @ : ];
xs : Nil [ @ ::= ];
xs : Pair [ @ ::= @ [ ", " "%n" ] @ ];
transform xs on "none" Pair(n, l) : Nil();
transform p on "same" * : P();
E { synthesized xs e; };
F { synthesized INT n; };
E ::= (ID '+' E) { [xs] } | () { Nil() };
F ::= ('(' F ')') { F$2.n } | (ID) { STRlen(ID.value) };
xs ~ E.e;
INT ~ F.n;
"#
}
