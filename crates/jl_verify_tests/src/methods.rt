//! Tests of the check: methods of a class, each with what comes of it.

use crate::assignability::questions;
use crate::files::{class_of, fault_text};
use crate::hierarchies::hierarchy;
use jl_making::comes;
use jl_verify::verify;
use std::alloc::Global;
use std::test::*;

/// Methods, each in five parts: flags, name, descriptor, max_stack and max_locals; the code; the stack map, which is
/// none where nothing stands; the handlers; and what comes of the check.
static ROWS: [&str; 266] = [
    // the smallest
    "0009 m ()Ljava/lang/Object; 1 0 | 03 b0 | | | NotTyped(1, Operand)",
    "0009 m ()V 1 0 | 03 | | | NotTyped(0, End)",
    "0009 m ()V 0 0 | 03 | | | NotTyped(0, Overflow)",
    "0009 m ()V 0 0 | a7 0000 | | | NotTyped(0, Target)",
    "0001 <init> ()V 0 1 | b1 | | | NotTyped(0, Init)",
    "0009 m ()V 1 0 | 0b 57 b1 | | | Ok",
    "0009 m (F)V 0 1 | 57 | | | Ok",
    // a stub whose stack map is none, no instruction, a stack map that is not whole, and both
    "0009 m ()V 1 0 | 0b 57 b1 | 0001 80 | | Ok",
    "0009 m ()V 0 0 | ff | | | Code(UnknownOp(0))",
    "0009 m ()V 0 0 | b1 b1 | 0001 80 | | Frames(BadTag(2))",
    "0009 m ()V 0 0 | ff | 0001 80 | | Code(UnknownOp(0))",
    // no-frame
    "0009 m ()V 0 0 | b1 b1 | | | NotTyped(1, NoFrame)",
    "0009 m ()V 0 0 | b1 b1 | 0001 01 | | Ok",
    // frame: what falls through, and frames that cannot be made
    "0009 m ()V 1 1 | 03 3b b1 | 0001 fc0002 01 | | Ok",
    "0009 m ()V 1 1 | 03 3b b1 | 0001 fc0002 00 | | Ok",
    "0009 m ()V 1 1 | 03 3b b1 | 0001 02 | | Ok",
    "0009 m ()V 1 1 | 03 3b b1 | 0001 fc0002 070008 | | NotTyped(2, Frame)",
    "0009 m ()V 1 1 | 03 57 b1 | 0001 fc0002 01 | | NotTyped(2, Frame)",
    "0009 m ()V 1 0 | 03 b1 | 0001 01 | | NotTyped(1, Frame)",
    "0009 m ()V 0 0 | b1 b1 | 0001 f80001 | | NotTyped(1, Frame)",
    "0009 m (IJ)V 0 3 | b1 b1 | 0001 f90001 | | Ok",
    "0009 m (IJ)V 0 3 | b1 b1 | 0001 f80001 | | NotTyped(1, Frame)",
    "0009 m ()V 0 1 | b1 b1 | 0001 fc0001 070001 | | NotTyped(1, Frame)",
    "0009 m ()V 1 0 | 11 0000 57 b1 | 0001 01 | | NotTyped(1, Frame)",
    "0009 m ()V 0 0 | 57 b1 b1 | 0001 f80002 | | NotTyped(2, Frame)",
    "0009 m (I)V 0 1 | b1 | 0001 ff0000 0001 01 0000 | | Ok",
    "0009 m (I)V 0 1 | b1 | 0001 ff0000 0001 070008 0000 | | NotTyped(0, Frame)",
    // handlers
    "0009 m ()V 1 0 | b80028 b1 bf | 0001 44 07000e | 0000 0003 0004 0000 | Ok",
    "0009 m ()V 1 0 | b80028 b1 bf | | 0000 0003 0004 0000 | NotTyped(0, Handler)",
    "0009 m ()V 1 0 | b80028 b1 57 b1 | 0001 44 070008 | 0000 0003 0004 0000 | Ok",
    "0009 m ()V 1 0 | b80028 b1 bf | 0001 44 070008 | 0000 0003 0004 0000 | NotTyped(4, Operand)",
    "0009 m ()V 1 0 | b80028 b1 57 b1 | 0001 44 01 | 0000 0003 0004 0000 | NotTyped(0, Handler)",
    "0009 m ()V 1 0 | b80028 b1 57 b1 | 0001 04 | 0000 0003 0004 0000 | NotTyped(0, Handler)",
    "0009 m ()V 1 0 | b80028 b1 57 b1 | 0001 44 070010 | 0000 0003 0004 0010 | Ok",
    "0009 m ()V 1 0 | b80028 b1 57 b1 | 0001 44 070004 | 0000 0003 0004 0004 | NotTyped(0, Handler)",
    "0009 m ()V 1 0 | b80028 b1 57 b1 | 0001 44 07000c | 0000 0003 0004 0010 | Ok",
    "0009 m (I)V 1 1 | 03 3b b1 57 b1 | 0001 ff0003 0001 01 0001 07000e | 0000 0002 0003 0000 | Ok",
    "0009 m ()V 1 1 | 03 3b b1 57 b1 | 0001 ff0003 0001 01 0001 07000e | 0000 0002 0003 0000 | NotTyped(0, Handler)",
    "0009 m ()V 1 1 | 03 3b b1 57 b1 | 0001 ff0003 0001 01 0001 07000e | 0001 0002 0003 0000 | NotTyped(1, Handler)",
    "0009 m (Lp/A;)V 1 1 | 03 3b b1 57 b1 | 0001 ff0003 0001 070002 0001 07000e | 0001 0002 0003 0000 | Ok",
    "0009 m (Lp/A;)V 1 1 | 03 3b b1 57 b1 | 0001 ff0003 0001 070002 0001 07000e | 0001 0003 0003 0000 | NotTyped(2, Handler)",
    "0009 m ()V 1 0 | 57 b1 b1 | | 0000 0001 0002 0000 | NotTyped(0, Handler)",
    // operands and overflow
    "0009 m ()V 1 0 | 57 b1 | | | NotTyped(0, Operand)",
    "0009 m ()V 1 0 | 03 57 b1 | | | Ok",
    "0009 m ()V 1 0 | 03 03 57 57 b1 | | | NotTyped(1, Overflow)",
    "0009 m ()V 2 0 | 03 03 57 57 b1 | | | Ok",
    "0009 m ()V 1 0 | 0a 58 b1 | | | NotTyped(0, Overflow)",
    "0009 m ()V 1 1 | 03 3c b1 | | | NotTyped(1, Overflow)",
    "0009 m ()V 2 2 | 0a 40 b1 | | | NotTyped(1, Overflow)",
    "0009 m ()V 2 3 | 0a 40 b1 | | | Ok",
    "0009 m ()V 0 0 | b1 b1 | 0001 fc0001 01 | | NotTyped(1, Overflow)",
    "0009 m ()V 0 0 | b1 57 b1 | 0001 41 01 | | NotTyped(1, Overflow)",
    "0009 m ()V 1 1 | 1a 57 b1 | | | NotTyped(0, Operand)",
    "0009 m (I)V 1 1 | 1a 57 b1 | | | Ok",
    "0009 m (I)V 1 1 | 2a 57 b1 | | | NotTyped(0, Operand)",
    "0009 m (Lp/A;)V 1 1 | 1a 57 b1 | | | NotTyped(0, Operand)",
    "0009 m (J)V 2 2 | 1e 58 b1 | | | Ok",
    "0009 m (J)V 2 2 | 1b 57 b1 | | | NotTyped(0, Operand)",
    "0009 m ()V 2 2 | 0a 3f 03 3c 1e 58 b1 | | | NotTyped(4, Operand)",
    "0009 m ()V 2 2 | 0a 3f 03 3b 1e 58 b1 | | | NotTyped(4, Operand)",
    "0009 m ()V 2 3 | 0a 40 0a 3f 1f 58 b1 | | | NotTyped(4, Operand)",
    "0009 m (I)V 0 1 | 840001 b1 | | | Ok",
    "0009 m (J)V 0 2 | 840001 b1 | | | NotTyped(0, Operand)",
    // targets and the end
    "0009 m ()V 0 0 | a70003 b1 | 0001 03 | | Ok",
    "0009 m ()V 0 0 | a70003 b1 | | | NotTyped(0, Target)",
    "0009 m ()V 1 1 | 03 3b 03 3b a7fffe | 0001 fc0002 01 | | Ok",
    "0009 m ()V 1 1 | 03 3b 01 4b a7fffe | 0001 fc0002 01 | | NotTyped(4, Target)",
    "0009 m ()V 1 0 | 03 57 | | | NotTyped(1, End)",
    "0009 m ()V 1 0 | a70003 03 a7ffff | 0002 03 40 01 | | NotTyped(4, Target)",
    "0009 m (I)V 1 1 | 1a aa0000 00000013 00000000 00000000 00000013 b1 | 0001 14 | | Ok",
    "0009 m (I)V 1 1 | 1a aa0000 00000013 00000000 00000000 00000013 b1 | | | NotTyped(1, Target)",
    "0009 m (I)V 1 1 | 1a aa0000 00000013 00000000 00000000 00000014 b1 b1 | 0001 14 | | NotTyped(1, Target)",
    "0009 m (I)V 1 1 | 1a aa0000 00000013 00000000 00000000 00000014 b1 b1 | 0002 14 00 | | Ok",
    "0009 m (J)V 2 2 | 1e aa0000 00000013 00000000 00000000 00000013 b1 | 0001 14 | | NotTyped(1, Operand)",
    "0009 m (I)V 1 1 | 1a ab0000 00000013 00000001 00000007 00000013 b1 | 0001 14 | | Ok",
    // merges: classes, an interface, a class and an array in both orders
    "0009 m (ILp/S;Lp/B;)Lp/S; 1 3 | 1a 990007 2b a70004 2c b0 | 0002 08 40 070004 | | Ok",
    "0009 m (ILp/S;Lp/B;)Lp/S; 1 3 | 1a 990007 2b a70004 2c b0 | 0002 08 40 07000a | | NotTyped(5, Target)",
    "0009 m (ILp/B;Lp/S;)Lp/S; 1 3 | 1a 990007 2b a70004 2c b0 | 0002 08 40 07000a | | NotTyped(9, Frame)",
    "0009 m (ILp/S;Lp/B;)Lp/I; 1 3 | 1a 990007 2b a70004 2c b0 | 0002 08 40 07000c | | Ok",
    "0009 m (ILp/S;[I)V 1 3 | 1a 990007 2b a70004 2c 57 b1 | 0002 08 40 070008 | | Ok",
    "0009 m (I[ILp/S;)V 1 3 | 1a 990007 2b a70004 2c 57 b1 | 0002 08 40 070008 | | Ok",
    "0009 m (ILp/S;[I)V 1 3 | 1a 990007 2b a70004 2c 57 b1 | 0002 08 40 070012 | | NotTyped(5, Target)",
    "0009 m (I[ILp/S;)V 1 3 | 1a 990007 2b a70004 2c 57 b1 | 0002 08 40 070012 | | NotTyped(9, Frame)",
    "0009 m (ILp/S;[I)V 1 3 | 1a 990007 2b a70004 2c 57 b1 | 0002 08 40 070004 | | NotTyped(9, Frame)",
    "0009 m (I[ILp/S;)V 1 3 | 1a 990007 2b a70004 2c 57 b1 | 0002 08 40 070004 | | NotTyped(5, Target)",
    "0009 m (ILp/S;[I)V 1 3 | 1a 990007 2b a70004 01 57 b1 | 0002 08 40 070004 | | Ok",
    "0009 m (IJ)V 2 3 | 1a 990007 1f a70005 0a 58 b1 | 0002 08 41 04 | | NotTyped(10, Frame)",
    "0009 m (IJ)V 2 3 | 1a 990007 1f a70004 0a 58 b1 | 0002 08 40 04 | | Ok",
    "0009 m (IJ)V 2 3 | 1a 990007 1f a70004 0a b1 | 0002 08 40 01 | | NotTyped(5, Target)",
    // interfaces, and arrays of arrays
    "0009 m (Lp/S;)Lp/I; 1 1 | 2a b0 | | | Ok",
    "0009 m (Lp/I;)Lp/S; 1 1 | 2a b0 | | | NotTyped(1, Operand)",
    "0009 m (Lp/I;)Ljava/lang/Object; 1 1 | 2a b0 | | | Ok",
    "0009 m (Lp/S;)V 1 1 | 2a b9002b0100 b1 | | | Ok",
    "0009 m ([I)V 1 1 | 2a b9002b0100 b1 | | | NotTyped(1, Operand)",
    "0009 m ([[I)[Ljava/lang/Object; 1 1 | 2a b0 | | | Ok",
    "0009 m ([I)[Ljava/lang/Object; 1 1 | 2a b0 | | | NotTyped(1, Operand)",
    "0009 m ([Ljava/lang/Object;)[[I 1 1 | 2a b0 | | | NotTyped(1, Operand)",
    "0009 m ([Lp/B;)[Lp/A; 1 1 | 2a b0 | | | Ok",
    "0009 m ([Lp/A;)[Lp/B; 1 1 | 2a b0 | | | NotTyped(1, Operand)",
    "0009 m ([Lp/S;)[Lp/I; 1 1 | 2a b0 | | | Ok",
    "0009 m ([[I)[I 1 1 | 2a b0 | | | NotTyped(1, Operand)",
    "0009 m ([B)[Z 1 1 | 2a b0 | | | NotTyped(1, Operand)",
    "0009 m ([I)Ljava/lang/Cloneable; 1 1 | 2a b0 | | | Ok",
    "0009 m ()[I 1 0 | 01 b0 | | | Ok",
    // elements of arrays
    "0009 m ()Lp/A; 2 0 | 01 03 32 b0 | | | Ok",
    "0009 m ([[I)[I 2 1 | 2a 03 32 b0 | | | Ok",
    "0009 m ([Lp/B;)Lp/B; 2 1 | 2a 03 32 b0 | | | Ok",
    "0009 m ([I)V 2 1 | 2a 03 32 57 b1 | | | NotTyped(2, Operand)",
    "0009 m ([Z)I 2 1 | 2a 03 33 ac | | | Ok",
    "0009 m ([B)I 2 1 | 2a 03 33 ac | | | Ok",
    "0009 m ([C)I 2 1 | 2a 03 33 ac | | | NotTyped(2, Operand)",
    "0009 m ()I 2 0 | 01 03 33 ac | | | Ok",
    "0009 m ([C)I 2 1 | 2a 03 34 ac | | | Ok",
    "0009 m ([S)I 2 1 | 2a 03 34 ac | | | NotTyped(2, Operand)",
    "0009 m ([S)I 2 1 | 2a 03 35 ac | | | Ok",
    "0009 m ([I)I 2 1 | 2a 03 2e ac | | | Ok",
    "0009 m ([B)I 2 1 | 2a 03 2e ac | | | NotTyped(2, Operand)",
    "0009 m ([J)J 2 1 | 2a 03 2f ad | | | Ok",
    "0009 m ([I)J 2 1 | 2a 03 2f ad | | | NotTyped(2, Operand)",
    "0009 m ([I)V 3 1 | 2a 03 03 4f b1 | | | Ok",
    "0009 m ([J)V 4 1 | 2a 03 0a 50 b1 | | | Ok",
    "0009 m ([J)V 4 1 | 2a 03 03 50 b1 | | | NotTyped(3, Operand)",
    "0009 m ([Z)V 3 1 | 2a 03 03 54 b1 | | | Ok",
    "0009 m ([S)V 3 1 | 2a 03 03 54 b1 | | | NotTyped(3, Operand)",
    "0009 m ([C)V 3 1 | 2a 03 03 55 b1 | | | Ok",
    "0009 m ([S)V 3 1 | 2a 03 03 56 b1 | | | Ok",
    "0009 m ([Lp/A;Ljava/lang/Object;)V 3 2 | 2a 03 2b 53 b1 | | | Ok",
    "0009 m ([I)V 3 1 | 2a 03 01 53 b1 | | | NotTyped(3, Operand)",
    "0009 m ([Lp/A;)V 3 1 | 2a 03 03 53 b1 | | | NotTyped(3, Operand)",
    "0009 m ([[J)I 1 1 | 2a be ac | | | Ok",
    "0009 m ()I 1 0 | 01 be ac | | | Ok",
    "0009 m (Lp/A;)I 1 1 | 2a be ac | | | NotTyped(1, Operand)",
    "0009 m ()[I 1 0 | 03 bc0a b0 | | | Ok",
    "0009 m ()[J 1 0 | 03 bc0a b0 | | | NotTyped(3, Operand)",
    "0009 m ()[Lp/A; 1 0 | 03 bd0002 b0 | | | Ok",
    "0009 m ()[[I 1 0 | 03 bd0012 b0 | | | Ok",
    "0009 m ()[[I 2 0 | 03 03 c5001802 b0 | | | Ok",
    "0009 m ()[[I 2 0 | 03 c5001802 b0 | | | NotTyped(1, Operand)",
    // stack rows, and a long cut by each
    "0009 m ()V 2 0 | 0a 57 b1 | | | NotTyped(1, Operand)",
    "0009 m ()V 3 0 | 0a 03 58 b1 | | | NotTyped(2, Operand)",
    "0009 m ()V 2 0 | 0a 58 b1 | | | Ok",
    "0009 m ()V 3 0 | 0a 59 b1 | | | NotTyped(1, Operand)",
    "0009 m ()V 2 0 | 03 59 58 b1 | | | Ok",
    "0009 m ()V 4 0 | 0a 03 5a b1 | | | NotTyped(2, Operand)",
    "0009 m ()V 3 0 | 03 01 5a 57 be b1 | | | NotTyped(4, Operand)",
    "0009 m ()V 3 0 | 03 01 5a be 58 57 b1 | | | Ok",
    "0009 m ()V 5 0 | 0a 03 03 5b b1 | | | NotTyped(3, Operand)",
    "0009 m ()V 4 0 | 0a 03 5b 57 58 57 b1 | | | Ok",
    "0009 m ()V 5 0 | 0a 03 5c b1 | | | NotTyped(2, Operand)",
    "0009 m ()V 4 0 | 0a 5c 58 58 b1 | | | Ok",
    "0009 m ()V 6 0 | 0a 0a 5d b1 | | | NotTyped(2, Operand)",
    "0009 m ()V 5 0 | 03 0a 5d 58 57 58 b1 | | | Ok",
    "0009 m ()V 7 0 | 0a 03 0a 5e b1 | | | NotTyped(3, Operand)",
    "0009 m ()V 6 0 | 0a 0a 5e 58 58 58 b1 | | | Ok",
    "0009 m ()V 2 0 | 0a 5f b1 | | | NotTyped(1, Operand)",
    "0009 m ()V 3 0 | 0a 03 5f b1 | | | NotTyped(2, Operand)",
    "0009 m ()I 2 0 | 03 01 5f ac | | | Ok",
    "0009 m ()V 2 0 | 0a a70003 57 57 b1 | 0001 ff0004 0000 0002 00 00 | | NotTyped(4, Operand)",
    "0009 m ()V 2 0 | 0a a70003 58 b1 | 0001 ff0004 0000 0002 00 00 | | NotTyped(4, Operand)",
    "0009 m ()V 2 0 | 0a a70003 b1 | 0001 ff0004 0000 0002 00 00 | | Ok",
    // arithmetic, comparisons and returns
    "0009 m ()I 2 0 | 03 03 60 ac | | | Ok",
    "0009 m ()J 4 0 | 0a 0a 61 ad | | | Ok",
    "0009 m ()J 3 0 | 0a 03 61 ad | | | NotTyped(2, Operand)",
    "0009 m ()J 3 0 | 0a 03 79 ad | | | Ok",
    "0009 m ()J 4 0 | 0a 0a 79 ad | | | NotTyped(2, Operand)",
    "0009 m ()I 4 0 | 0a 0a 94 ac | | | Ok",
    "0009 m ()J 4 0 | 0a 0a 94 ad | | | NotTyped(3, Operand)",
    "0009 m ()I 1 0 | 03 74 92 ac | | | Ok",
    "0009 m ()I 2 0 | 03 85 75 88 ac | | | Ok",
    "0009 m ()I 1 0 | 01 74 ac | | | NotTyped(1, Operand)",
    "0009 m ()I 1 0 | 03 88 ac | | | NotTyped(1, Operand)",
    "0009 m ()J 1 0 | 03 ac | | | NotTyped(1, Operand)",
    "0009 m ()I 0 0 | b1 | | | NotTyped(0, Operand)",
    "0009 m ()V 1 0 | 03 ac | | | NotTyped(1, Operand)",
    "0009 m ()Z 1 0 | 03 ac | | | Ok",
    "0009 m ()V 1 0 | 01 c60003 b1 | 0001 04 | | Ok",
    "0009 m ()V 1 0 | 03 c60003 b1 | 0001 04 | | NotTyped(1, Operand)",
    "0009 m ()V 2 0 | 01 01 a50003 b1 | 0001 05 | | Ok",
    "0009 m ()V 2 0 | 01 03 a50003 b1 | 0001 05 | | NotTyped(2, Operand)",
    "0009 m ()V 2 0 | 03 03 9f0003 b1 | 0001 05 | | Ok",
    "0009 m ()V 2 0 | 01 03 9f0003 b1 | 0001 05 | | NotTyped(2, Operand)",
    "0009 m ()Ljava/lang/String; 1 0 | 123c b0 | | | Ok",
    "0009 m ()Lp/A; 1 0 | 123c b0 | | | NotTyped(2, Operand)",
    "0009 m ()J 2 0 | 14003d ad | | | Ok",
    "0009 m (Lp/T;)V 1 1 | 2a bf | | | Ok",
    "0009 m (Lp/S;)V 1 1 | 2a bf | | | NotTyped(1, Operand)",
    "0009 m ()V 1 0 | 01 bf | | | Ok",
    "0009 m (Ljava/lang/Object;)Lp/A; 1 1 | 2a c00002 b0 | | | Ok",
    "0009 m ()Lp/A; 1 0 | 03 c00002 b0 | | | NotTyped(1, Operand)",
    "0009 m ()I 1 0 | 01 c10002 ac | | | Ok",
    "0009 m ()I 1 0 | 03 c10002 ac | | | NotTyped(1, Operand)",
    "0009 m ()V 1 0 | 01 c2 b1 | | | Ok",
    "0009 m ()V 1 0 | 03 c3 b1 | | | NotTyped(1, Operand)",
    // fields and calls
    "0009 m ()I 1 0 | b2002f ac | | | Ok",
    "0009 m ()J 2 0 | b20033 ad | | | Ok",
    "0009 m ()J 1 0 | b2002f ad | | | NotTyped(3, Operand)",
    "0009 m ()V 2 0 | 0a b30033 b1 | | | Ok",
    "0009 m ()V 2 0 | 03 b30033 b1 | | | NotTyped(1, Operand)",
    "0009 m (Lp/A;)V 1 1 | 2a b30037 b1 | | | Ok",
    "0009 m (Lp/B;)I 1 1 | 2a b4002f ac | | | Ok",
    "0009 m (Lp/S;)I 1 1 | 2a b4002f ac | | | NotTyped(1, Operand)",
    "0009 m (Lp/A;)V 2 1 | 2a 03 b5002f b1 | | | Ok",
    "0009 m (Lp/A;)V 2 1 | 2a 01 b5002f b1 | | | NotTyped(2, Operand)",
    "0009 m (Lp/S;)V 2 1 | 2a 03 b5002f b1 | | | NotTyped(2, Operand)",
    "0009 m (Lp/B;)V 1 1 | 2a b60028 b1 | | | Ok",
    "0009 m (Lp/S;)V 1 1 | 2a b60028 b1 | | | NotTyped(1, Operand)",
    "0009 m (Lp/S;)Lp/A; 3 1 | 2a 0a b8003b b0 | | | Ok",
    "0009 m (Lp/S;)Lp/A; 3 1 | 0a 2a b8003b b0 | | | NotTyped(2, Operand)",
    "0009 m (Lp/S;)Lp/A; 3 1 | 2a 03 b8003b b0 | | | NotTyped(2, Operand)",
    "0001 m ()V 1 1 | 2a b70029 b1 | | | Ok",
    "0001 m ()V 1 1 | 2a b70028 b1 | | | Ok",
    "0001 m ()V 1 1 | 2a b7002a b1 | | | NotTyped(1, Operand)",
    "0001 m ()V 1 1 | 2a b7002b b1 | | | Ok",
    "0001 m ()V 1 1 | 2a b70042 b1 | | | NotTyped(1, Operand)",
    "0009 m (Lp/S;)V 1 1 | 2a b70029 b1 | | | NotTyped(1, Operand)",
    // objects before their <init>: in a loop, in a handler, passed to a method
    "0009 m ()V 1 1 | bb0002 4b a7fffc | 0001 00 | | Ok",
    "0009 m ()V 1 1 | bb0002 4b a7fffc | 0001 fc0000 080000 | | NotTyped(0, Frame)",
    "0009 m ()V 1 0 | bb0002 a7fffd | 0001 00 | | NotTyped(3, Target)",
    "0009 m ()V 1 1 | bb0002 4b a70003 2a b70023 b1 | 0001 fc0007 080000 | | Ok",
    "0009 m ()V 1 1 | bb0002 4b a70003 2a b70023 b1 | 0001 fc0007 080001 | | NotTyped(4, Target)",
    "0009 m ()V 2 0 | b1 bb0002 57 57 b1 | 0001 41 080001 | | NotTyped(1, Operand)",
    "0009 m ()V 2 0 | b1 bb0002 57 57 b1 | 0001 41 080000 | | Ok",
    "0009 m ()V 1 1 | b1 bb0002 57 2a b70023 b1 | 0001 fc0001 080001 | | NotTyped(5, Operand)",
    "0009 m ()V 1 1 | bb0002 4b b80028 b1 57 2a b70023 b1 | 0001 ff0008 0001 080000 0001 07000e | 0004 0007 0008 0000 | Ok",
    "0009 m ()V 1 1 | bb0002 4b b80028 b1 57 2a b70023 b1 | 0001 ff0008 0001 070002 0001 07000e | 0004 0007 0008 0000 | NotTyped(4, Handler)",
    "0009 m ()V 1 0 | bb0002 b80046 b1 | | | NotTyped(3, Operand)",
    "0009 m ()V 2 0 | bb0002 59 b70023 b80046 b1 | | | Ok",
    "0009 m ()V 2 1 | bb0002 59 4b b70023 2a b80046 b1 | | | Ok",
    "0009 m ()I 1 0 | bb0002 b4002f ac | | | NotTyped(3, Operand)",
    "0009 m ()Lp/A; 1 0 | bb0002 b0 | | | NotTyped(3, Operand)",
    "0009 m ()Lp/A; 1 0 | bb0002 c00002 b0 | | | NotTyped(3, Operand)",
    "0009 m ()V 1 0 | bb0002 c2 b1 | | | Ok",
    "0009 m ()V 2 0 | bb0002 59 a50003 b1 | 0001 07 | | Ok",
    "0009 m ()V 1 0 | bb0002 c60003 b1 | 0001 06 | | Ok",
    "0009 m ([Lp/A;)V 3 1 | 2a 03 bb0002 53 b1 | | | NotTyped(5, Operand)",
    "0009 m ()V 1 0 | bb0002 b70025 b1 | | | NotTyped(3, Operand)",
    "0009 m ()V 1 0 | bb000a b70023 b1 | | | NotTyped(3, Operand)",
    "0009 m ()V 1 0 | bb0004 b70024 b1 | | | Ok",
    "0009 m ()V 3 0 | bb0002 59 59 b70023 b70023 b1 | | | NotTyped(8, Operand)",
    "0009 m (Lp/A;)V 1 1 | 2a b70023 b1 | | | NotTyped(1, Operand)",
    "0009 m ()V 2 0 | bb0002 bb0002 b70023 b70023 b1 | | | Ok",
    // this of <init>: before and after the call, in a branch, in a handler
    "0001 <init> ()V 1 1 | 2a b70024 b1 | | | Ok",
    "0001 <init> ()V 1 1 | 2a b70023 b1 | | | Ok",
    "0001 <init> ()V 1 1 | 2a b70022 b1 | | | NotTyped(1, Operand)",
    "0001 <init> ()V 1 1 | 2a b60028 2a b70024 b1 | | | NotTyped(1, Operand)",
    "0001 <init> ()V 1 1 | 2a b70024 2a b60028 b1 | | | Ok",
    "0001 <init> ()V 2 1 | 2a 03 b5002f 2a b70024 b1 | | | Ok",
    "0001 <init> ()V 2 1 | 2a 03 b5003f 2a b70024 b1 | | | NotTyped(2, Operand)",
    "0001 <init> ()V 1 1 | 2a b4002f 57 2a b70024 b1 | | | NotTyped(1, Operand)",
    "0001 <init> ()V 1 2 | 2a 4c 2a b70024 2b b60028 b1 | | | Ok",
    "0001 <init> ()V 1 1 | 2a b70024 2a b70024 b1 | | | NotTyped(5, Operand)",
    "0001 <init> ()V 2 1 | 2a 59 b70024 b70024 b1 | | | NotTyped(5, Operand)",
    "0001 <init> ()V 1 1 | 2a 4b 01 4b b1 | | | NotTyped(4, Init)",
    "0001 <init> ()V 1 1 | 01 bf | | | Ok",
    "0001 <init> (I)V 1 2 | 1b 990008 2a b70024 b1 b1 | 0001 09 | | NotTyped(9, Init)",
    "0001 <init> (I)V 1 2 | 1b 990008 2a b70024 b1 b1 | 0001 ff0009 0002 00 01 0000 | | NotTyped(1, Target)",
    "0001 <init> (I)V 1 2 | 1b 99000a 2a b70024 a70007 2a b70024 b1 | 0002 0b ff0003 0002 070002 01 0000 | | Ok",
    "0001 <init> (I)V 1 2 | 1b 990007 2a b70024 b1 | 0001 08 | | NotTyped(8, Frame)",
    "0001 <init> ()V 1 1 | 2a b70024 b1 bf | 0001 ff0005 0001 06 0001 07000e | 0000 0004 0005 0000 | Ok",
    "0001 <init> ()V 1 1 | 2a b70024 b1 57 b1 | 0001 ff0005 0001 06 0001 07000e | 0000 0004 0005 0000 | NotTyped(6, Init)",
    "0001 <init> ()V 1 1 | 2a b70024 b1 bf | 0001 ff0005 0000 0001 07000e | 0000 0004 0005 0000 | NotTyped(0, Handler)",
    "0001 <init> ()V 1 1 | 2a b70024 b1 bf | 0001 ff0005 0000 0001 07000e | 0004 0005 0005 0000 | Ok",
    // classes that are missing
    "0009 m (Lp/S;)Lp/Gone; 1 1 | 2a b0 | | | ClassMissing p/Gone LinkageError gone",
    "0009 m ([Lp/S;)[Lp/None; 1 1 | 2a b0 | | | ClassMissing p/None NoClassDefFoundError",
    "0009 m ()Lp/Gone; 1 0 | 01 b0 | | | Ok",
    "0009 m (Lp/Gone;)Lp/Gone; 1 1 | 2a b0 | | | Ok",
];

/// What comes of the check of a method, and what its row wants, with the questions that were asked.
#[derive(Drop)]
struct CheckedRow<'a> {
    got: String,
    want: &'a str,
    asked: String,
}

/// What comes of the check of the method of a row where the questions with these numbers fail.
fn outcome<'a>(alloc: Global, row: &'a str, fails: &[u64]) -> Result<CheckedRow<'a>, Fail> {
    let mut parts = row.split('|');
    let method = parts.next().ok_or("a method")?;
    let code = parts.next().ok_or("code")?;
    let frames = parts.next().ok_or("a stack map")?.trim();
    let handlers = parts.next().ok_or("handlers")?;
    let want = parts.next().ok_or("what comes")?.trim();
    let class = class_of(alloc, method, code, frames, handlers)?;
    if class.methods().is_empty() {
        return Err(Fail::new("no method"));
    }
    let mut h = hierarchy(alloc, fails)?;
    let got = match verify(alloc, &mut h, &class, 0) {
        Ok(()) => String::from_str(alloc, "Ok")?,
        Err(fault) => fault_text(alloc, &fault)?,
    };
    let asked = questions(alloc, &h)?;
    Ok(CheckedRow { got, want, asked })
}

#[test]
fn methods_are_checked(rt: HostRuntime) -> Result<(), Fail> {
    let alloc = rt.alloc();
    for row in &ROWS {
        let CheckedRow { got, want, .. } = outcome(alloc, row, &[])?;
        comes(row, got.as_str(), want)?;
    }
    Ok(())
}

/// Methods as above, with the number of the question that fails, or 0, and the questions that are asked.
static QUESTIONS: [(&str, u64, &str); 14] = [
    ("0009 m ()V 1 0 | 57 b1 | | | NotTyped(0, Operand)", 1, ""),
    (
        "0009 m (Lp/B;)V 1 1 | 2a b60028 2a b60028 b1 | | | Ok",
        0,
        "i p/A; s p/B p/A; i p/A; s p/B p/A; ",
    ),
    (
        "0009 m (Lp/B;)V 1 1 | 2a b60028 2a b60028 b1 | | | ReadFault",
        1,
        "i p/A; ",
    ),
    (
        "0009 m (Lp/B;)V 1 1 | 2a b60028 2a b60028 b1 | | | ReadFault",
        3,
        "i p/A; s p/B p/A; i p/A; ",
    ),
    (
        "0009 m (Lp/S;)Lp/Gone; 1 1 | 2a b0 | | | ClassMissing p/Gone LinkageError gone",
        0,
        "i p/Gone; ",
    ),
    (
        "0009 m (Lp/Gone;)Lp/S; 1 1 | 2a b0 | | | ClassMissing p/Gone LinkageError gone",
        0,
        "i p/S; s p/Gone p/S; ",
    ),
    (
        "0009 m (Lp/S;)Lp/Gone; 1 1 | 2a b0 | | | ReadFault",
        1,
        "i p/Gone; ",
    ),
    // a handler asks for its caught type at each instruction that it covers
    (
        "0009 m ()V 1 0 | 00 00 b1 57 b1 | 0001 43 070010 | 0000 0002 0003 0010 | Ok",
        0,
        "s p/T java/lang/Throwable; s p/T java/lang/Throwable; ",
    ),
    (
        "0009 m ()V 1 0 | 00 00 b1 57 b1 | 0001 43 07000e | 0000 0002 0003 0000 | Ok",
        0,
        "",
    ),
    // its frame is decided before its caught type is asked for, and both before operands
    (
        "0009 m (Lp/B;)V 1 1 | 2a b60028 b1 57 b1 | 0001 45 070004 | 0001 0004 0005 0010 | NotTyped(1, Handler)",
        0,
        "i p/S; s p/T p/S; ",
    ),
    // locals before the stack, and both from the lowest
    (
        "0009 m (Lp/A;Lp/B;)V 2 2 | 2a 2b a70003 58 b1 | 0001 ff0005 0001 070004 0002 07000c 070002 | | Ok",
        0,
        "i p/S; s p/A p/S; i p/I; i p/A; s p/B p/A; ",
    ),
    // no question behind the first no
    (
        "0009 m (Lp/S;Lp/B;)V 2 2 | 2a 2b a70003 58 b1 | 0001 ff0005 0000 0002 07000a 070002 | | NotTyped(2, Target)",
        0,
        "i p/B; s p/S p/B; ",
    ),
    // operands from the top down, and then what invokespecial asks
    (
        "0001 m ()V 1 1 | 2a b70029 b1 | | | Ok",
        0,
        "i p/S; s p/A p/S; ",
    ),
    (
        "0009 m (Lp/B;Lp/B;)V 2 2 | 2a 03 b5002f 2a 2b b5004a b1 | | | Ok",
        0,
        "i p/A; s p/B p/A; i p/S; s p/B p/S; i p/A; s p/B p/A; ",
    ),
];

#[test]
fn questions_are_asked_in_order(rt: HostRuntime) -> Result<(), Fail> {
    let alloc = rt.alloc();
    for (row, fails, questions) in &QUESTIONS {
        let CheckedRow { got, want, asked } = outcome(alloc, row, &[*fails])?;
        comes(row, got.as_str(), want)?;
        comes(row, asked.as_str(), questions)?;
    }
    Ok(())
}
