//! A small language of statements with precedence lines, references to enclosing nodes and a view, and a script with
//! what its commands print.

/// The language.
pub fn language() -> &'static [u8] {
    br#"root prog;
list stmts;
prog : Prog(stmts);
stmts : NoStmts() | Stmts(stmt stmts);
stmt : Empty() | Decl(ID INT) | Print(ID);
env : NoEnv() | Bind(ID INT env);
ID : < "[a-z][a-z0-9]*" >;
NUM : < "[0-9]+" >;
WHITESPACE : < "[ \n]+" >;
left '+' '-';
left '*';
stmts { inherited env e; synthesized INT errs; };
stmt { synthesized env out; synthesized INT errs; };
INT look(ID k, env e) { with (e) ( NoEnv() : 0 - 1, Bind(n, v, r) : n == k ? v : look(k, r) ) };
prog : Prog { stmts.e = NoEnv(); };
stmts : NoStmts { $$.errs = 0; };
stmts : Stmts { stmts$2.e = stmt.out; $$.errs = stmt.errs + stmts$2.errs; };
stmt : Empty { $$.out = {stmts.e}; $$.errs = 0; };
stmt : Decl { $$.out = Bind(ID.value, INT.value, {stmts.e}); $$.errs = 0; };
stmt : Print { local INT val; val = look(ID.value, {stmts.e}); $$.out = {stmts.e}; $$.errs = val < 0 ? 1 : 0; };
prog : Prog [ @ : @ "%n" stmts.errs " errors" ];
stmts : NoStmts [ @ ::= ];
stmts : Stmts [ @ ::= @ [ "%n" ] @ ];
stmt : Empty [ @ ::= "<stmt>" ];
stmt : Decl [ @ ::= "let " ^ " = " ^ ];
stmt : Decl in short [ @ ::= ^ "=" ^ ];
stmt : Print in short [ @ ::= "?" ^ ];
stmt : Print [ @ ::= "print " ^ "  -- " val ];
transform stmt on "drop" Print(n) : Empty();
transform stmt on "zero" Decl(n, v) : Decl(n, 0);
S { synthesized stmt t; };
L { synthesized stmts t; };
E { synthesized INT v; };
E ::= (NUM) { STRtoINT(NUM.value) } | (E '+' E) { E$2.v + E$3.v } | (E '-' E) { E$2.v - E$3.v } | (E '*' E) { E$2.v * E$3.v };
S ::= ('let' ID '=' E) { Decl(ID.value, E.v) } | ('print' ID) { Print(ID.value) };
L ::= () { NoStmts() } | (S ';' L) { S.t :: L$2.t };
stmt ~ S.t;
stmts ~ L.t;
"#
}

/// Each command, and its block.
pub const ROWS: [(&[u8], &[u8]); 25] = [
    (
        b"new p",
        br#"= p 1:1-2:8 prog top 1 ev 7 ok
|<stmt>
|0 errors
"#,
    ),
    (
        b"next",
        br#"= p 1:1-1:6 stmts top 1 ev 0 ok
|<stmt>
|0 errors
"#,
    ),
    (
        br#"text "let a = 2 * 3 - 4 - 1; print a; print b;""#,
        br#"= p 1:1-3:14 stmts top 1 ev 18 ok
|let a = 1
|print a  -- 1
|print b  -- -1
|1 errors
"#,
    ),
    (
        b"next",
        br#"= p 1:1-1:9 stmt top 1 ev 0 ok
|let a = 1
|print a  -- 1
|print b  -- -1
|1 errors
"#,
    ),
    (
        br#"text "let a = 7""#,
        br#"= p 1:1-1:9 stmt top 1 ev 12 ok
|let a = 7
|print a  -- 7
|print b  -- -1
|1 errors
"#,
    ),
    (
        b"view short",
        br#"= p/short 1:1-1:3 stmt top 1 ev 0 ok
|a=7
|?a
|?b
|1 errors
"#,
    ),
    (
        b"undo",
        br#"= p/short 1:1-1:3 stmt top 1 ev 12 ok
|a=1
|?a
|?b
|1 errors
"#,
    ),
    (
        b"redo",
        br#"= p/short 1:1-1:3 stmt top 1 ev 12 ok
|a=7
|?a
|?b
|1 errors
"#,
    ),
    (
        b"extend",
        br#"= p/short 1:1-2:2 stmt*2 top 1 ev 0 ok
|a=7
|?a
|?b
|1 errors
"#,
    ),
    (
        b"copy",
        br#"= p/short 1:1-2:2 stmt*2 top 1 ev 0 ok
|a=7
|?a
|?b
|1 errors
"#,
    ),
    (
        b"view",
        br#"= p 1:1-2:13 stmt*2 top 1 ev 0 ok
|let a = 7
|print a  -- 7
|print b  -- -1
|1 errors
"#,
    ),
    (
        b"paste",
        br#"= p 1:1-2:13 stmt*2 top 1 ev 18 ok
|let a = 7
|print a  -- 7
|print b  -- -1
|1 errors
"#,
    ),
    (
        b"elide",
        br#"= p 1:1-2:13 stmt*2 top 1 ev 0 in run
|let a = 7
|print a  -- 7
|print b  -- -1
|1 errors
"#,
    ),
    (
        b"undo",
        br#"= p 1:1-2:13 stmt*2 top 1 ev 18 ok
|let a = 7
|print a  -- 7
|print b  -- -1
|1 errors
"#,
    ),
    (
        br#"find "drop""#,
        br#"= p 2:1-2:13 stmt top 1 ev 0 ok
|let a = 7
|print a  -- 7
|print b  -- -1
|1 errors
"#,
    ),
    (
        b"insert-after",
        br#"= p 3:1-3:6 stmt top 1 ev 12 ok
|let a = 7
|print a  -- 7
|<stmt>
|print b  -- -1
|1 errors
"#,
    ),
    (
        b"remove",
        br#"= p 3:1-3:14 stmt top 1 ev 7 ok
|let a = 7
|print a  -- 7
|print b  -- -1
|1 errors
"#,
    ),
    (
        b"up",
        br#"= p 1:1-3:14 stmts top 1 ev 0 ok
|let a = 7
|print a  -- 7
|print b  -- -1
|1 errors
"#,
    ),
    (
        br#"replace-all "drop""#,
        br#"= p 1:1-3:6 stmts top 1 ev 16 ok
|let a = 7
|<stmt>
|<stmt>
|0 errors
"#,
    ),
    (
        b"undo",
        br#"= p 1:1-3:14 stmts top 1 ev 18 ok
|let a = 7
|print a  -- 7
|print b  -- -1
|1 errors
"#,
    ),
    (
        b"next",
        br#"= p 1:1-1:9 stmt top 1 ev 0 ok
|let a = 7
|print a  -- 7
|print b  -- -1
|1 errors
"#,
    ),
    (
        br#"type "print c""#,
        br#"= p 1:1-1:7 stmt top 1 ev 0 ok
|print c
|print a  -- 7
|print b  -- -1
|1 errors
"#,
    ),
    (
        b"enter",
        br#"= p 1:1-1:14 stmt top 1 ev 15 ok
|print c  -- -1
|print a  -- -1
|print b  -- -1
|3 errors
"#,
    ),
    (
        b"save t",
        br#"= p 1:1-1:14 stmt top 1 ev 0 ok
|print c  -- -1
|print a  -- -1
|print b  -- -1
|3 errors
"#,
    ),
    (
        b"load q t",
        br#"= q 1:1-4:8 prog top 1 ev 20 ok
|print c  -- -1
|print a  -- -1
|print b  -- -1
|3 errors
"#,
    ),
];
